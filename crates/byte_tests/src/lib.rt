// Tests of all bytes of a slice.
#![tactic(auto)]

ghost use Rattle.std.specs.Prelude.{◌≡◌, ltb, eqb};
ghost use Rattle.program.specs.Each.{every};

// Whether every byte is below a limit: the largest is. Every byte is looked at, so that the loop takes many bytes at a time.
pub fn all_below(bytes: &[u8], limit: u8) -> bool
    ensures { result ≡ every (λ x. ltb x limit) bytes.now }
{
    if limit == 0 {
        return bytes.is_empty();
    }
    let mut most = 0;
    for &b in bytes {
        most = most.max(b);
    }
    most < limit
}

// Whether every byte is 0.
pub fn all_zero(bytes: &[u8]) -> bool
    ensures { result ≡ every (λ x. eqb x 0) bytes.now }
{
    all_below(bytes, 1)
}
