// Arguments and heads of lines of the text form, written into a slice at a position. The bytes, words and numbers they are made of are passed on.
#![tactic(auto)]

ghost use Rattle.format.specs.Text.{argument};
ghost use Rattle.write_bytes.specs.Write.{Room, Wrote};
ghost use Rattle.write_text.specs.Heads.{head_text};

pub use write_bytes::{put_byte, put_word};
pub use write_numbers::put_number;

// Writes a space and n in decimal, and returns the next position.
#[tactic(auto, unfolding(format::specs::Text::argument))]
pub fn put_argument(out: &mut [u8], at: usize, n: u16) -> usize
    requires { Room out.old at (argument n) }
    ensures { Wrote out.old at (argument n) result out.new }
{
    let p = put_byte(out, at, b' ');
    put_number(out, p, n)
}

// Writes how a line begins: a word, a number and the space behind it.
pub fn put_head(out: &mut [u8], at: usize, word: &[u8], n: u16) -> usize
    requires { Room out.old at (head_text word.now n) }
    ensures { Wrote out.old at (head_text word.now n) result out.new }
{
    let p = put_word(out, at, word);
    let q = put_argument(out, p, n);
    put_byte(out, q, b' ')
}
