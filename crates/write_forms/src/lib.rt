// Forms, written into a slice at a position by their kind and their numbers.
#![tactic(auto)]

ghost use Rattle.std.specs.Prelude.{◌≡◌, length};
ghost use Rattle.format.specs.Text.{arguments};
ghost use Rattle.format.specs.Forms.{form_of};
ghost use Rattle.format.specs.Print.{form_text};
ghost use Rattle.write_bytes.specs.Write.{Room, Wrote};
ghost use Rattle.write_forms.specs.Texts.{kind_word};

use kinds::{arity, form_place};

// Writes numbers, each with a space before it.
fn put_arguments(out: &mut [u8], at: usize, numbers: &[u8]) -> usize
    requires { Room out.old at (arguments numbers.now) }
    ensures { Wrote out.old at (arguments numbers.now) result out.new }
{
    let mut next = at;
    for &n in numbers {
        next = write_text::put_argument(out, next, n as u16);
    }
    next
}

// The word of a kind, with the bracket before it.
#[tactic(auto, using(kinds::proofs::Counts::place_below), unfolding(format::specs::Text::ascii))]
fn kind_word(kind: u8) -> &'static [u8]
    ensures { result.now ≡ kind_word kind }
{
    let words: [&[u8]; 14] = [
        b"[unit", b"[chan", b"[send", b"[recv", b"[pair", b"[left", b"[right", b"[fun", b"[spawn",
        b"[sync", b"[first", b"[second", b"[case", b"[apply",
    ];
    words[form_place(kind)]
}

// Writes the form of a kind and five numbers, of which it holds the first.
#[tactic(auto, unfolding(format::specs::Text::ascii))]
pub fn put_form(out: &mut [u8], at: usize, kind: u8, numbers: &[u8]) -> usize
    requires numbers_len { length numbers.now ≡ 5 }
    requires room { Room out.old at (form_text (form_of kind numbers.now)) }
    ensures { Wrote out.old at (form_text (form_of kind numbers.now)) result out.new }
{
    let count = arity(kind);
    let p = write_text::put_word(out, at, kind_word(kind));
    let q = put_arguments(out, p, &numbers[..count]);
    write_text::put_byte(out, q, b']')
}
