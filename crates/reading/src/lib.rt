// Reading into lent bytes.
#![tactic(auto)]

ghost use Rattle.std.specs.Prelude.{◌≤◌, length};

use std::io::Read;

// Reads until the bytes lent are full, the input ends or a read fails, and answers how many bytes it put at their start.
pub fn read_full<R: Read>(input: &mut R, bytes: &mut [u8]) -> usize
    ensures { result ≤ length bytes.new }
{
    let mut done = 0;
    // A read gives as many bytes as it likes, so no count is known before.
    while done < bytes.len() {
        match input.read(&mut bytes[done..]) {
            Ok(0) | Err(_) => break,
            Ok(n) => done += n,
        }
    }
    done
}
