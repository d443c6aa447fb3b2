// Text: lines in hex, and the bytes that they stand for.

#![tactic(auto)]

ghost use Rattle.std.specs.Prelude.{◌≡◌, ◌+◌, ◌*◌, ◌≤◌, ◌<◌, length, take};
ghost use Rattle.rules.specs.Bytes.{splice};
ghost use Rattle.text.specs.Text.{digit_of, is_hex, bytes_of};

// ---- digits

#[tactic(auto, unfolding(rules::specs::Bytes::iff, crate::specs::Text::digit_of))]
fn digit(d: u8) -> u8
    ensures value { result ≡ digit_of d }
    ensures small { result < 16 }
{
    match d {
        b'0'..=b'9' => d - b'0',
        b'A'..=b'F' => d - b'A' + 10,
        b'a'..=b'f' => d - b'a' + 10,
        _ => 0,
    }
}

// ---- hex

#[tactic(auto, unfolding(crate::specs::Text::is_hex))]
pub fn is_hex(l: &[u8]) -> bool
    ensures { result ≡ is_hex l.now }
{
    l.len() % 2 == 0 && l.iter().all(u8::is_ascii_hexdigit)
}

// The first bytes of a line in hex, as many as dst has.
#[tactic(auto, using(std::proofs::lemmas::Grind::common_steps, crate::proofs::Laws::bytes))]
fn decode(dst: &mut [u8], l: &[u8])
    requires { 2 * length dst.old ≤ length l.now }
    ensures { dst.new ≡ take (length dst.old) (bytes_of l.now) }
{
    for (i, b) in dst.iter_mut().enumerate() {
        *b = digit(l[2 * i]) * 16 + digit(l[2 * i + 1]);
    }
}

// The first n bytes of a line in hex, put into a buffer.
#[tactic(auto, using(octets::proofs::Laws::lent, crate::proofs::Laws::bytes), unfolding(rules::specs::Bytes::splice))]
pub fn read_hex(dst: &mut [u8], at: usize, l: &[u8], n: usize)
    requires { (2 * n ≤ length l.now) × (at + n ≤ length dst.old) }
    ensures { dst.new ≡ splice dst.old at (take n (bytes_of l.now)) }
{
    let end = at + n;
    decode(&mut dst[at..end], l);
}
