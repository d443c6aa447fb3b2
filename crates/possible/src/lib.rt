// Whether a session is possible (01, "Calls the host may not make", refusal 2).

#![tactic(auto)]

ghost use Rattle.std.specs.Prelude.{◌≡◌};
ghost use Rattle.rules.specs.Session.{chain_ok, rest_ok, user_key, user_algorithm, key_job_ok, job_ok, possible};

use rules::{Chain, Job, Rest, Session};

#[tactic(auto, unfolding(rules::specs::Bytes::iff))]
fn chain_ok(c: Option<Chain>) -> bool
    ensures { result ≡ chain_ok c }
{
    c.is_none_or(|c| {
        let fits = if c.ins == 0x87 {
            c.len <= 266
        } else {
            c.ins == 0xDB
        };
        c.len <= 13321 && fits
    })
}

fn rest_ok(r: Option<Rest>) -> bool
    ensures { result ≡ rest_ok r }
{
    r.is_none_or(|r| r.whole <= 13321 && r.fetched < r.whole)
}

#[tactic(auto, unfolding(rules::specs::Session::user_key))]
fn user_key(key: u8) -> bool
    ensures { result ≡ user_key key }
{
    matches!(key, 0x9A | 0x9C | 0x9D | 0x9E)
}

#[tactic(auto, unfolding(rules::specs::Session::user_algorithm))]
fn user_algorithm(alg: u8) -> bool
    ensures { result ≡ user_algorithm alg }
{
    matches!(alg, 0x07 | 0x11)
}

// 9B with 00, or one of 9A, 9C, 9D, 9E with 07 or 11.
#[tactic(auto, unfolding(rules::specs::Session::key_job_ok, rules::specs::Bytes::iff))]
fn key_job_ok(key: u8, alg: u8) -> bool
    ensures { result ≡ key_job_ok key alg }
{
    if key == 0x9B {
        alg == 0x00
    } else {
        user_key(key) && user_algorithm(alg)
    }
}

fn job_ok(j: Option<Job>) -> bool
    ensures { result ≡ job_ok j }
{
    j.is_none_or(|j| key_job_ok(j.key, j.alg) && (1..=256).contains(&j.le))
}

#[tactic(auto, unfolding(rules::specs::Session::possible, rules::specs::Session::session_tests))]
pub fn possible(s: Session) -> bool
    ensures { result ≡ possible s }
{
    let held = s.chain.is_some() || s.rest.is_some() || s.challenge.is_some();
    chain_ok(s.chain)
        && rest_ok(s.rest)
        && !(s.chain.is_some() && s.rest.is_some())
        && !(s.job.is_some() && held)
        && job_ok(s.job)
}
