// The session: setters that several commands use, and the number of bytes of a chain.

#![tactic(auto)]

ghost use Rattle.std.specs.Prelude.{◌≡◌};
ghost use Rattle.rules.specs.Session.{cleared, holding, with_challenge, with_job, chain_length};

use rules::{Chain, Job, Rest, Session};

// ---- setters

// The session of a power-on.
pub fn cleared(contactless: bool) -> Session
    ensures { result ≡ cleared contactless }
{
    Session {
        contactless,
        pin: false,
        admin: false,
        chain: None,
        rest: None,
        challenge: None,
        job: None,
    }
}

pub fn holding(s: Session, chain: Option<Chain>, rest: Option<Rest>) -> Session
    ensures { result ≡ holding s chain rest }
{
    Session { chain, rest, ..s }
}

pub fn with_challenge(s: Session, challenge: Option<u64>) -> Session
    ensures { result ≡ with_challenge s challenge }
{
    Session { challenge, ..s }
}

pub fn with_job(s: Session, job: Option<Job>) -> Session
    ensures { result ≡ with_job s job }
{
    Session { job, ..s }
}

// ---- what a session holds

pub fn chain_length(c: Option<Chain>) -> usize
    ensures { result ≡ chain_length c }
{
    c.map_or(0, |c| c.len)
}
