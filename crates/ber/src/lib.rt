// Ber: lengths and data objects (01, "The data objects in a command").
// Whatever is read from a command data field is read by these (crate reader carries them over a field), so the length rule stands in one place.

#![tactic(auto)]

ghost use Rattle.std.specs.Prelude.{◌≡◌, ◌+◌, ◌≤◌, ◌<◌, length, unwrap_or, IfSome};
ghost use Rattle.rules.specs.Ber.{length_bytes, announced, length_value, length_at, object_at};

use rules::{Length, Place};

// ---- lengths

// 01: the number of length bytes follows from the count of significant bits. A clause and no `u16`, since callers hold a length; as a cast it fits
// by the clause, and `u32::try_from` would have an `Err` that no call takes.
#[tactic(auto, unfolding(rules::specs::Ber::length_bytes, rules::specs::Ber::bits, rules::specs::Bytes::iff))]
pub fn length_bytes(n: usize) -> usize
    requires { n < 65536 }
    ensures bytes { result ≡ length_bytes n }
    ensures few { result ≤ 3 }
{
    match 32 - u32::leading_zeros(n as u32) {
        0..=7 => 1,
        8 => 2,
        _ => 3,
    }
}

// The number of bytes of a length that starts so.
#[tactic(auto, unfolding(rules::specs::Ber::announced, rules::specs::Bytes::iff))]
fn announced(b: u8) -> Option<usize>
    ensures count { unwrap_or result 0 ≡ announced b }
    ensures few { IfSome result (λ k. (1 ≤ k) × (k ≤ 3)) }
{
    match b {
        0..=0x7F => Some(1),
        0x81 => Some(2),
        0x82 => Some(3),
        _ => None,
    }
}

#[tactic(auto, unfolding(rules::specs::Ber::length_value, rules::specs::Bytes::iff))]
fn length_value(s: &[u8], at: usize, k: usize) -> usize
    requires some { 1 ≤ k }
    requires few { k ≤ 3 }
    requires inside { at + k ≤ length s.now }
    ensures { result ≡ length_value s.now at k }
{
    match k {
        1 => usize::from(s[at]),
        2 => usize::from(s[at + 1]),
        _ => numbers::be16(s, at + 1),
    }
}

// 01: only the shortest form is taken.
#[tactic(auto, using(crate::proofs::Laws::value_below), unfolding(rules::specs::Ber::length_at, rules::specs::Ber::length_in, rules::specs::Bytes::iff))]
fn read_length(s: &[u8], at: usize) -> Option<Length>
    ensures read { result ≡ length_at s.now at }
    ensures inside { IfSome result (λ l. l.next ≤ length s.now) }
{
    let k = announced(*s.get(at)?)?;
    if s.len() - at < k {
        return None;
    }
    let len = length_value(s, at, k);
    if length_bytes(len) != k {
        return None;
    }
    Some(Length { len, next: at + k })
}

// ---- objects

#[tactic(auto, unfolding(rules::specs::Ber::object_at, rules::specs::Ber::value_from, rules::specs::Bytes::iff))]
pub fn read_object(s: &[u8], at: usize, tag: u8) -> Option<Place>
    ensures read { result ≡ object_at s.now at tag }
    ensures inside { IfSome result (λ v. v.from + v.len ≤ length s.now) }
{
    if *s.get(at)? != tag {
        return None;
    }
    let Length { len, next } = read_length(s, at + 1)?;
    if s.len() - next < len {
        return None;
    }
    Some(Place { from: next, len })
}
