// Sums: a buffer by its sum, in decimal. By hand: the library prints into a `String`, and there is no heap.
ghost use Rattle.std.specs.Prelude.{◌≡◌, ◌+◌, ◌≤◌, length};
ghost use Rattle.rules.specs.Bytes.{splice};
ghost use Rattle.outcomes.specs.Sums.{sum_of, decimal_of};

// The largest prime below 2^32.
const PRIME: u64 = 4_294_967_291;

pub fn sum(s: &[u8]) -> u64
    ensures { result ≡ sum_of s.now }
{
    // As a cast: the library has no `From` here, and `u64::try_from` would have an `Err` that is never taken.
    let mut h = s.len() as u64 % PRIME;
    for b in s {
        h = (h * 257 + u64::from(*b) + 1) % PRIME;
    }
    h
}

// In at most k digits.
#[tactic(auto, using(crate::proofs::Digits::digits, rules::proofs::Lists::buffers, std::proofs::lemmas::Grind::common_steps))]
pub fn write_decimal(dst: &mut [u8], at: usize, k: usize, n: u64) -> usize
    requires { at + k ≤ length dst.old }
    ensures { (result ≡ at + length (decimal_of k n)) × (dst.new ≡ splice dst.old at (decimal_of k n)) }
{
    if k == 0 {
        return at;
    }
    // As casts: a figure fits.
    if n < 10 {
        octets::put_byte(dst, at, b'0' + n as u8);
        return at + 1;
    }
    let next = write_decimal(dst, at, k - 1, n / 10);
    octets::put_byte(dst, next, b'0' + (n % 10) as u8);
    next + 1
}
