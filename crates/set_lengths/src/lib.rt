// How long the lines of sets are, by how many members have more than one digit, and more than two; nothing is written. A set has a byte for each member, which is not 0 where the member is in the set: unit is member 0, and row r is r + 1.
// Beside the writer, as in row_lengths, and not one function with it: a text that is written only for its length is made twice.
#![tactic(auto)]

ghost use Rattle.std.specs.Prelude.{[], ◌≡◌, ◌≤◌, length};
ghost use Rattle.program.specs.Each.{collect};
ghost use Rattle.format.specs.Limits.{row_limit};
ghost use Rattle.format.specs.Print.{members_text};
ghost use Rattle.calls.specs.Layout.{member_limit, sets_size, members_from, with_entry, decode_sets};
ghost use Rattle.write_sets.specs.Texts.{entry_text};
ghost use Rattle.write_sets.specs.Keys.{Keyed};
ghost use Rattle.set_lengths.specs.Lengths.{is_member};

use number_lengths::argument_length;
use store::Store;

// 1 if a byte marks a member. A number and no bool: the loop below adds many at a time so, and a filter that is counted took twenty times as long.
fn is_member(b: u8) -> u8
    ensures { result ≡ is_member b }
{
    if b == 0 { 0 } else { 1 }
}

// How many members a set has. The count is a byte and every byte is looked at, so that the loop takes many at a time.
#[tactic(auto, using(number_lengths::proofs::Sums::onward, number_lengths::proofs::Sums::within, number_lengths::proofs::Sums::finished, crate::proofs::Members::count_next, crate::proofs::Members::count_end, crate::proofs::Rulesets::count_members_facts))]
fn count_members(flags: &[u8]) -> usize
    requires { length flags.now ≤ 255 }
    ensures { result ≡ length (members_from 0 flags.now) }
{
    let mut count = 0u8;
    for &b in flags {
        count += is_member(b);
    }
    count as usize
}

// The length of the members of a set, each with a space before it, and the closing bracket: a member takes two bytes, from row 10 on one more, and from row 100 on one more again.
#[tactic(auto, using(crate::proofs::Members::members_sum, crate::proofs::Lines::members_short))]
fn members_length(flags: &[u8]) -> usize
    requires { length flags.now ≡ member_limit }
    ensures { result ≡ length (members_text (members_from 0 flags.now)) }
{
    let all = count_members(flags);
    let tens = count_members(&flags[11..]);
    let hundreds = count_members(&flags[101..]);
    all * 2 + tens + hundreds + 1
}

// The length of the line of a set, or 0 where the set is empty.
#[tactic(auto, using(crate::proofs::Lines::members_short, crate::proofs::Lines::no_line, crate::proofs::Lines::line_sum, crate::proofs::Rulesets::set_line_length_facts))]
fn set_line_length(word: &[u8], n: u8, flags: &[u8]) -> usize
    requires word_len_bound { length word.now ≤ 10 }
    requires flags_len { length flags.now ≡ member_limit }
    ensures { result ≡ length (collect (entry_text word.now) (with_entry n (members_from 0 flags.now) [])) }
{
    let members = members_length(flags);
    if members == 1 {
        return 0;
    }
    let key = argument_length(n);
    word.len() + key + members + 3
}

// The length of the lines of the sets of all names or channels; their bytes stand at the head of a slice. Only the sets of marked keys are looked at.
#[tactic(auto, using(number_lengths::proofs::Sums::same_rest, number_lengths::proofs::Sums::onward, number_lengths::proofs::Sums::within, number_lengths::proofs::Sums::finished, write_store::proofs::Bounds::sets_length, crate::proofs::Lines::lines_skip, crate::proofs::Lines::lines_next, crate::proofs::Lines::lines_end))]
pub fn sets_length(word: &[u8], sets: &[u8], keys: &[u8]) -> usize
    requires word_len_bound { length word.now ≤ 10 }
    requires sets_size_in_bounds { sets_size ≤ length sets.now }
    requires keyed { Keyed keys.now sets.now }
    ensures { result ≡ length (collect (entry_text word.now) (decode_sets row_limit 0 sets.now)) }
{
    let mut total = 0;
    for n in 0..Store::ROWS {
        if keys[n] == 0 {
            continue;
        }
        let from = n * Store::MEMBERS;
        let to = from + Store::MEMBERS;
        total += set_line_length(word, n as u8, &sets[from..to]);
    }
    total
}
