// Octets: bytes copied and zeroed.
// Whoever writes a buffer writes it through these, so bytes are copied in one place and zeroed in one place.
// A buffer and a place in it are given, and no `Vec`: the card has no heap.

#![tactic(auto, unfolding(rules::specs::Bytes::splice, rules::specs::Bytes::zeros, rules::specs::Bytes::word))]

ghost use Rattle.std.specs.Prelude.{◌≡◌, [], ◌∷◌, ◌+◌, ◌≤◌, ◌<◌, length};
ghost use Rattle.rules.specs.Bytes.{splice, zeros, word};

pub fn put(dst: &mut [u8], at: usize, src: &[u8])
    requires { at + length src.now ≤ length dst.old }
    ensures { dst.new ≡ splice dst.old at src.now }
{
    let end = at + src.len();
    dst[at..end].copy_from_slice(src);
}

pub fn zero(dst: &mut [u8], at: usize, n: usize)
    requires { at + n ≤ length dst.old }
    ensures { dst.new ≡ splice dst.old at (zeros n) }
{
    let end = at + n;
    dst[at..end].fill(0);
}

pub fn put_byte(dst: &mut [u8], at: usize, b: u8)
    requires { at < length dst.old }
    ensures { dst.new ≡ splice dst.old at (b ∷ []) }
{
    dst[at] = b;
}

pub fn put_word(dst: &mut [u8], at: usize, n: u16)
    requires { at + 2 ≤ length dst.old }
    ensures { dst.new ≡ splice dst.old at (word n) }
{
    put(dst, at, &n.to_be_bytes());
}
