// Parts: bytes read where they stand. A part of a row is lent on, not copied; and two rows are compared.

#![tactic(auto, unfolding(rules::specs::Bytes::part))]

ghost use Rattle.std.specs.Prelude.{◌≡◌, ◌+◌, ◌≤◌, length};
ghost use Rattle.rules.specs.Bytes.{same_bytes, part};

// 01, "The data objects in a command": a value read is that stretch of the command itself.
pub fn part(s: &[u8], from: usize, n: usize) -> &[u8]
    requires { from + n ≤ length s.now }
    ensures part { result.now ≡ part s.now from n }
    ensures len { length result.now ≡ n }
{
    &s[from..from + n]
}

// This may end at the first byte that differs, so secrets are not compared here but by their number.
pub fn same(a: &[u8], b: &[u8]) -> bool
    ensures { result ≡ same_bytes a.now b.now }
{
    a == b
}
