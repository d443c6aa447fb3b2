// Packed: a session as 64 bytes.

#![tactic(auto)]

ghost use Rattle.std.specs.Prelude.{◌≡◌};
ghost use Rattle.rules.specs.Bytes.{word};
ghost use Rattle.packed.specs.Packed.{flag_bytes, chain_bytes, rest_bytes, challenge_bytes, job_bytes, packed, flag};

use rules::{Chain, Job, Rest, Session};

fn flag(b: bool) -> u8
    ensures { result ≡ flag b }
{
    u8::from(b)
}

fn flag_bytes(s: Session) -> [u8; 3]
    ensures { result ≡ flag_bytes s }
{
    [flag(s.contactless), flag(s.pin), flag(s.admin)]
}

// The lower 16 bits, the high byte first.
#[tactic(auto, unfolding(rules::specs::Bytes::word))]
fn word(n: usize) -> [u8; 2]
    ensures { result ≡ word n }
{
    let [.., high, low] = n.to_be_bytes();
    [high, low]
}

#[tactic(auto, unfolding(rules::specs::Bytes::word))]
fn chain_bytes(c: Option<Chain>) -> [u8; 6]
    ensures { result ≡ chain_bytes c }
{
    match c {
        None => [0; 6],
        Some(c) => {
            let [high, low] = word(c.len);
            [1, c.ins, c.p1, c.p2, high, low]
        }
    }
}

#[tactic(auto, unfolding(rules::specs::Bytes::word))]
fn rest_bytes(r: Option<Rest>) -> [u8; 5]
    ensures { result ≡ rest_bytes r }
{
    match r {
        None => [0; 5],
        Some(r) => {
            let [whole, low] = word(r.whole);
            let [fetched, last] = word(r.fetched);
            [1, whole, low, fetched, last]
        }
    }
}

fn challenge_bytes(c: Option<u64>) -> [u8; 9]
    ensures { result ≡ challenge_bytes c }
{
    match c {
        None => [0; 9],
        Some(reply) => {
            let [a, b, c, d, e, f, g, h] = reply.to_be_bytes();
            [1, a, b, c, d, e, f, g, h]
        }
    }
}

#[tactic(auto, unfolding(rules::specs::Bytes::word))]
fn job_bytes(j: Option<Job>) -> [u8; 5]
    ensures { result ≡ job_bytes j }
{
    match j {
        None => [0; 5],
        Some(j) => {
            let [high, low] = word(j.le);
            [1, j.key, j.alg, high, low]
        }
    }
}

#[tactic(auto, unfolding(crate::specs::Packed::packed))]
pub fn pack(dst: &mut [u8; 64], s: Session)
    ensures { dst.new ≡ packed s }
{
    octets::put(dst, 0, &flag_bytes(s));
    octets::put(dst, 3, &chain_bytes(s.chain));
    octets::put(dst, 9, &rest_bytes(s.rest));
    octets::put(dst, 14, &challenge_bytes(s.challenge));
    octets::put(dst, 23, &job_bytes(s.job));
    octets::zero(dst, 28, 36);
}
