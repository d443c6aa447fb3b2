// Printing: bytes in hex.
// Whoever writes text is given a buffer and a place in it, and answers the place behind what it wrote: there is no heap.

#![tactic(auto)]

ghost use Rattle.std.specs.Prelude.{◌≡◌, ◌+◌, ◌*◌, ◌≤◌, ◌<◌, length};
ghost use Rattle.rules.specs.Bytes.{splice};
ghost use Rattle.printing.specs.Printing.{hex_of, glyph};

#[tactic(auto, unfolding(rules::specs::Bytes::iff, crate::specs::Printing::glyph))]
fn glyph(d: u8) -> u8
    requires { d < 16 }
    ensures { result ≡ glyph d }
{
    if d < 10 { b'0' + d } else { b'A' + d - 10 }
}

#[tactic(auto, using(std::proofs::lemmas::Grind::common_steps, crate::proofs::Laws::hex))]
fn encode(dst: &mut [u8], s: &[u8])
    requires { length dst.old ≡ 2 * length s.now }
    ensures { dst.new ≡ hex_of s.now }
{
    for (i, b) in s.iter().enumerate() {
        dst[2 * i] = glyph(*b / 16);
        dst[2 * i + 1] = glyph(*b % 16);
    }
}

#[tactic(auto, using(crate::proofs::Laws::hex), unfolding(rules::specs::Bytes::splice))]
pub fn write_hex(dst: &mut [u8], at: usize, s: &[u8]) -> usize
    requires { at + 2 * length s.now ≤ length dst.old }
    ensures { (result ≡ at + 2 * length s.now) × (dst.new ≡ splice dst.old at (hex_of s.now)) }
{
    let end = at + 2 * s.len();
    encode(&mut dst[at..end], s);
    end
}
