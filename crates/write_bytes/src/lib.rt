// A byte, and the bytes of a word, written into a slice at a position.
// A writer takes the slice and a position, and returns the next position. A struct of both, lent to each writer, was tried: it is 2.1 times slower where the writer is not inlined.
#![tactic(auto)]

ghost use Rattle.std.specs.Prelude.{[], ◌∷◌};
ghost use Rattle.write_bytes.specs.Write.{Room, Wrote};

// Writes a byte and returns the next position.
pub fn put_byte(out: &mut [u8], at: usize, b: u8) -> usize
    requires { Room out.old at (b ∷ []) }
    ensures { Wrote out.old at (b ∷ []) result out.new }
{
    out[at] = b;
    at + 1
}

// Writes the bytes of a word and returns the next position. Byte by byte: of `copy_from_slice` the compiler makes a call of memmove where it
// knows no length, which the library would then need from outside.
pub fn put_word(out: &mut [u8], at: usize, word: &[u8]) -> usize
    requires { Room out.old at word.now }
    ensures { Wrote out.old at word.now result out.new }
{
    let mut next = at;
    for &b in word {
        next = put_byte(out, next, b);
    }
    next
}
