// What is in a set of bytes.
#![tactic(auto)]

ghost use Rattle.std.specs.Prelude.{◌≡◌};
ghost use Rattle.program.specs.Flow.{u, row};
ghost use Rattle.sets.specs.Sets.{set_of};

use store::Store;

// Whether row r is in a set.
#[tactic(auto, unfolding(sets::specs::Sets::set_of, format::specs::Document::member))]
pub fn has_row(set: &[u8], r: u8) -> bool
    ensures { result ≡ set_of set.now (row r) }
{
    let member = r as usize + 1;
    Store::MEMBERS <= set.len() && 0 < read_text::byte_at(set, member)
}

// Whether unit is in a set.
#[tactic(auto, unfolding(sets::specs::Sets::set_of, format::specs::Document::member))]
pub fn has_unit(set: &[u8]) -> bool
    ensures { result ≡ set_of set.now u }
{
    Store::MEMBERS <= set.len() && 0 < read_text::byte_at(set, 0)
}
