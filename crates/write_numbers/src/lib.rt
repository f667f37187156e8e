// Numbers of the text form, written into a slice at a position. Their digits are counted off by subtraction; nothing is divided.
#![tactic(auto)]

ghost use Rattle.std.specs.Prelude.{◌≡◌, ◌*◌, ◌%◌, ◌<◌, ◌≤◌};
ghost use Rattle.format.specs.Text.{place, digits};
ghost use Rattle.write_bytes.specs.Write.{Room, Wrote};
ghost use Rattle.write_numbers.specs.Counting.{CountedOff};

use write_bytes::put_byte;

// How often the place p goes into n, and what is left of it: counted off, four at a time as long as that goes, so that a digit takes four subtractions at the most. (A loop that takes one at a time the compiler turns into a division, by a multiplication.)
fn count_off(n: u16, p: u16) -> (u16, u16)
    requires p_nonzero { 0 < p }
    requires p_bound { p ≤ 10000 }
    ensures { CountedOff n p result.0 result.1 }
{
    let two = p + p;
    let four = two + two;
    let mut count = 0;
    let mut rest = n;
    // A step takes one or four: no count is known before.
    while p <= rest {
        if four <= rest {
            rest -= four;
            count += 4;
            continue;
        }
        rest -= p;
        count += 1;
    }
    (count, rest)
}

// Writes the digit of n at the place p, a power of ten, unless n is below p. The rest is what the places above p leave of n. Returns the next position, and what is left for the places below.
fn put_place(out: &mut [u8], at: usize, n: u16, p: u16, rest: u16) -> (usize, u16)
    requires p_nonzero { 0 < p }
    requires p_bound { p ≤ 10000 }
    requires rest_value { rest ≡ n % (10 * p) }
    requires room { Room out.old at (place n p) }
    ensures wrote { Wrote out.old at (place n p) result.0 out.new }
    ensures rest_value_2 { result.1 ≡ n % p }
{
    if n < p {
        return (at, rest);
    }
    let (digit, left) = count_off(rest, p);
    let next = put_byte(out, at, b'0' + digit as u8);
    (next, left)
}

// Writes n in decimal and returns the next position. A number of one digit is written at once.
pub fn put_number(out: &mut [u8], at: usize, n: u16) -> usize
    requires { Room out.old at (digits n) }
    ensures { Wrote out.old at (digits n) result out.new }
{
    if n < 10 {
        return put_byte(out, at, b'0' + n as u8);
    }
    let (a, thousands) = put_place(out, at, n, 10000, n);
    let (b, hundreds) = put_place(out, a, n, 1000, thousands);
    let (c, tens) = put_place(out, b, n, 100, hundreds);
    let (d, units) = put_place(out, c, n, 10, tens);
    put_byte(out, d, b'0' + units as u8)
}
