// Unpacked: the session that 64 bytes are of.

#![tactic(auto)]

ghost use Rattle.std.specs.Prelude.{◌≡◌, ◌<◌, length};
ghost use Rattle.unpacked.specs.Unpacked.{flag_at, chain_in, rest_in, challenge_in, job_in, unpacked, session_in};

use rules::{Chain, Job, Rest, Session};

fn flag_at(b: &[u8; 64], at: usize) -> bool
    requires { at < 64 }
    ensures { result ≡ flag_at b.now at }
{
    b[at] != 0
}

#[tactic(auto, unfolding(rules::specs::Bytes::iff, crate::specs::Unpacked::chain_in))]
fn chain_in(b: &[u8; 64]) -> Option<Chain>
    ensures { result ≡ chain_in b.now }
{
    flag_at(b, 3).then_some(Chain {
        ins: b[4],
        p1: b[5],
        p2: b[6],
        len: numbers::be16(b, 7),
    })
}

#[tactic(auto, unfolding(rules::specs::Bytes::iff, crate::specs::Unpacked::rest_in))]
fn rest_in(b: &[u8; 64]) -> Option<Rest>
    ensures { result ≡ rest_in b.now }
{
    flag_at(b, 9).then_some(Rest {
        whole: numbers::be16(b, 10),
        fetched: numbers::be16(b, 12),
    })
}

#[tactic(auto, unfolding(rules::specs::Bytes::iff, crate::specs::Unpacked::challenge_in))]
fn challenge_in(b: &[u8; 64]) -> Option<u64>
    ensures { result ≡ challenge_in b.now }
{
    flag_at(b, 14).then_some(numbers::be64(b, 15))
}

#[tactic(auto, unfolding(rules::specs::Bytes::iff, crate::specs::Unpacked::job_in))]
fn job_in(b: &[u8; 64]) -> Option<Job>
    ensures { result ≡ job_in b.now }
{
    flag_at(b, 23).then_some(Job {
        key: b[24],
        alg: b[25],
        le: numbers::be16(b, 26),
    })
}

#[tactic(auto, unfolding(crate::specs::Unpacked::unpacked))]
fn unpack(b: &[u8; 64]) -> Session
    ensures { result ≡ unpacked b.now }
{
    Session {
        contactless: flag_at(b, 0),
        pin: flag_at(b, 1),
        admin: flag_at(b, 2),
        chain: chain_in(b),
        rest: rest_in(b),
        challenge: challenge_in(b),
        job: job_in(b),
    }
}

// The session that 64 bytes are of, if there is one.
#[tactic(auto, unfolding(rules::specs::Bytes::iff, crate::specs::Unpacked::session_in))]
pub fn session_in(b: &[u8]) -> Option<Session>
    ensures { result ≡ session_in b.now }
{
    let s = unpack(b.as_array()?);
    let mut again = [0; 64];
    packed::pack(&mut again, s);
    parts::same(&again, b).then_some(s)
}
