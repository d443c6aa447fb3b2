// Heads: the tag and the length of a data object as they go out (01, "The data objects in a command"). They are written into a buffer at a place: the
// card has no heap.

#![tactic(auto)]

ghost use Rattle.std.specs.Prelude.{◌≡◌, ◌∷◌, ◌++◌, ◌+◌, ◌≤◌, ◌<◌, length, take};
ghost use Rattle.rules.specs.Bytes.{splice};
ghost use Rattle.rules.specs.Ber.{length_bytes, ber_length};

// 01: only the shortest form is written.
#[tactic(auto, using(crate::proofs::Laws::small, crate::proofs::Laws::one_to_three), unfolding(rules::specs::Ber::ber_length, rules::specs::Ber::length_form, rules::specs::Bytes::word, rules::specs::Bytes::iff))]
fn write_length(dst: &mut [u8], at: usize, n: usize) -> usize
    requires n_bound { n < 65536 }
    requires at_in_bounds { at + 3 ≤ length dst.old }
    ensures end { result ≡ at + length_bytes n }
    ensures written { dst.new ≡ splice dst.old at (ber_length n) }
{
    let k = ber::length_bytes(n);
    // As a cast: it fits by the clause, and `u16::try_from` would have an `Err` that no call takes.
    let [high, low] = (n as u16).to_be_bytes();
    match k {
        1 => octets::put(dst, at, &[low]),
        2 => octets::put(dst, at, &[0x81, low]),
        _ => octets::put(dst, at, &[0x82, high, low]),
    }
    at + k
}

// The head ends the prefix that is written so far.
#[tactic(auto, using(octets::proofs::Laws::splice_cons, crate::proofs::Laws::one_to_three))]
pub fn write_head(dst: &mut [u8], at: usize, tag: u8, n: usize) -> usize
    requires n_bound { n < 65536 }
    requires at_in_bounds { at + 4 ≤ length dst.old }
    ensures end { result ≡ at + 1 + length_bytes n }
    ensures written { dst.new ≡ splice dst.old at (tag ∷ ber_length n) }
    ensures prefix { take result dst.new ≡ take at dst.old ++ (tag ∷ ber_length n) }
    ensures few { result ≤ at + 4 }
{
    octets::put_byte(dst, at, tag);
    write_length(dst, at + 1, n)
}
