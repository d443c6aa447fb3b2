// Numbers: two, three or eight bytes read as a number, the highest byte first.

#![tactic(auto, unfolding(rules::specs::Bytes::be16, rules::specs::Bytes::be24, rules::specs::Bytes::be32, rules::specs::Bytes::be64))]

ghost use Rattle.std.specs.Prelude.{◌≡◌, ◌+◌, ◌≤◌, length};
ghost use Rattle.rules.specs.Bytes.{be16, be24, be64};

// Three functions and no generic one: the library has no trait over `from_be_bytes`, and each is a line of it.

pub fn be16(s: &[u8], at: usize) -> usize
    requires { at + 2 ≤ length s.now }
    ensures { result ≡ be16 s.now at }
{
    usize::from(u16::from_be_bytes(*s[at..].first_chunk().unwrap()))
}

pub fn be24(s: &[u8], at: usize) -> u32
    requires { at + 3 ≤ length s.now }
    ensures { result ≡ be24 s.now at }
{
    u32::from_be_bytes([0, s[at], s[at + 1], s[at + 2]])
}

pub fn be64(s: &[u8], at: usize) -> u64
    requires { at + 8 ≤ length s.now }
    ensures { result ≡ be64 s.now at }
{
    u64::from_be_bytes(*s[at..].first_chunk().unwrap())
}
