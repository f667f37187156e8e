// Forms, read from a slice at a position: the word that opens one, and its numbers, up to 999.
#![tactic(auto)]

ghost use Rattle.std.proofs.Math.Bool.{So};
ghost use Rattle.std.specs.Prelude.{◌≡◌, ◌≤◌};
ghost use Rattle.format.specs.Text.{one_of};
ghost use Rattle.format.specs.Read.{form_words, read_form};
ghost use Rattle.read_text.specs.Reads.{no_zero};
ghost use Rattle.read_forms.specs.Reads.{then_word, read_numbers, FormIs};

use read_text::{expect, read_argument};

// A form as read: its code, 2 to 15, and its numbers, up to 999; those that it does not hold are 0.
#[derive(Clone, Copy, PartialEq, Eq)]
pub struct RawForm {
    pub kind: u8,
    pub numbers: [u16; 5],
}

// What is found so far, or else a word at a position, with its code and the position past it.
#[tactic(auto, unfolding(crate::specs::Reads::then_word))]
fn or_word(
    earlier: Option<(u8, usize)>,
    s: &[u8],
    at: usize,
    word: &[u8],
    kind: u8,
) -> Option<(u8, usize)>
    requires { So (no_zero word.now) }
    ensures { result ≡ then_word earlier word.now kind s.now at }
{
    if earlier.is_some() {
        return earlier;
    }
    let next = expect(s, at, word)?;
    Some((kind, next))
}

// Reads the word that opens a form: its code and the position past it.
fn read_kind(s: &[u8], at: usize) -> Option<(u8, usize)>
    ensures { result ≡ one_of form_words s.now at }
{
    let unit = or_word(None, s, at, b"[unit", 2);
    let chan = or_word(unit, s, at, b"[chan", 3);
    let send = or_word(chan, s, at, b"[send", 4);
    let recv = or_word(send, s, at, b"[recv", 5);
    let pair = or_word(recv, s, at, b"[pair", 6);
    let left = or_word(pair, s, at, b"[left", 7);
    let right = or_word(left, s, at, b"[right", 8);
    let fun = or_word(right, s, at, b"[fun", 9);
    let spawn = or_word(fun, s, at, b"[spawn", 10);
    let sync = or_word(spawn, s, at, b"[sync", 11);
    let first = or_word(sync, s, at, b"[first", 12);
    let second = or_word(first, s, at, b"[second", 13);
    let case = or_word(second, s, at, b"[case", 14);
    or_word(case, s, at, b"[apply", 15)
}

// Reads as many numbers as count, each with a space before it: the numbers and the position past them.
fn read_numbers(s: &[u8], at: usize, count: usize) -> Option<([u16; 5], usize)>
    requires { count ≤ 5 }
    ensures { result ≡ read_numbers count s.now at }
{
    let mut numbers = [0; 5];
    let mut next = at;
    for i in 0..count {
        let (n, p) = read_argument(s, next)?;
        numbers[i] = n;
        next = p;
    }
    Some((numbers, next))
}

// Reads a form: the form and the position past it.
pub fn read_form(s: &[u8], at: usize) -> Option<(RawForm, usize)>
    ensures { FormIs (read_form s.now at) result }
{
    let (kind, p) = read_kind(s, at)?;
    let (numbers, q) = read_numbers(s, p, kinds::arity(kind))?;
    let next = expect(s, q, b"]")?;
    Some((RawForm { kind, numbers }, next))
}
