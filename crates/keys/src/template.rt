// What a whole GENERAL AUTHENTICATE comes to (01, under this name): the template 7C, the administrator's reply, the jobs that are opened.
// It is found first, by functions that are given neither the session nor a buffer and promise for every state; `answer` writes it.
ghost use Rattle.std.specs.Prelude.{◌≡◌, Ok, List, ℕ, ◌≤◌, length};
ghost use Rattle.rules.specs.Session.{State, state, with_admin};
ghost use Rattle.rules.specs.Keys.{admin_form, key_form, replied, auth_admin, auth_key, auth_in, auth_whole};
ghost use Rattle.rules.specs.Calls.{outcome, delivered};
ghost use Rattle.keys.specs.Replies.{auth_made};

use super::forms;
use super::input::Input;
use rules::{Admin, Answer, Fault, Header, Job, Reply, Session};

// What the command comes to where it is not a fault: the administrator is known now, or is not, or a job is opened.
#[derive(Clone, Copy)]
pub enum Auth<'a> {
    Known,
    Unknown,
    Opens { job: Job, input: Input<'a> },
}

// The two replies are compared as one number each.
#[tactic(auto, unfolding(rules::specs::Keys::replied, rules::specs::Bytes::iff))]
fn replied<'a>(ch: Option<u64>, reply: u64) -> Result<Auth<'a>, Fault>
    ensures made { (st : State) → auth_made st result ≡ replied st ch reply }
{
    match ch {
        None => Err(Fault::NothingHeld),
        Some(expected) if expected == reply => Ok(Auth::Known),
        Some(_) => Ok(Auth::Unknown),
    }
}

// A job for a challenge has no data.
#[tactic(auto, unfolding(rules::specs::Keys::auth_admin))]
fn auth_admin<'a>(ch: Option<u64>, le: usize, t: &'a [u8]) -> Result<Auth<'a>, Fault>
    ensures made { (st : State) → auth_made st result ≡ auth_admin ch st le t.now (admin_form t.now) }
{
    match forms::admin_form(t).ok_or(Fault::WrongData)? {
        Admin::GiveChallenge => {
            let job = Job {
                key: 0x9B,
                alg: 0x00,
                le,
            };
            Ok(Auth::Opens {
                job,
                input: Input { bytes: &t[..0] },
            })
        }
        Admin::Reply { from } => replied(ch, numbers::be64(t, from)),
    }
}

#[tactic(auto, unfolding(rules::specs::Keys::auth_key))]
fn auth_key<'a>(h: Header, t: &'a [u8]) -> Result<Auth<'a>, Fault>
    ensures made { (st : State) → auth_made st result ≡ auth_key st h t.now (key_form h.p2 h.p1 t.now) }
{
    let data = forms::key_form(h.p2, h.p1, t).ok_or(Fault::WrongData)?;
    let job = Job {
        key: h.p2,
        alg: h.p1,
        le: h.le,
    };
    Ok(Auth::Opens {
        job,
        input: Input {
            bytes: parts::part(t, data.from, data.len),
        },
    })
}

#[tactic(auto, unfolding(rules::specs::Keys::auth_in, rules::specs::Bytes::iff))]
fn auth_in<'a>(ch: Option<u64>, h: Header, t: &'a [u8]) -> Result<Auth<'a>, Fault>
    ensures made { (st : State) → auth_made st result ≡ auth_in ch h st t.now }
{
    if h.p2 == 0x9B {
        auth_admin(ch, h.le, t)
    } else {
        auth_key(h, t)
    }
}

// The template 7C is all of the data.
#[tactic(auto, unfolding(rules::specs::Keys::auth_whole, rules::specs::Keys::auth_form, rules::specs::Keys::contents))]
pub fn whole<'a>(ch: Option<u64>, h: Header, d: &'a [u8]) -> Result<Auth<'a>, Fault>
    ensures made { (st : State) → auth_made st result ≡ auth_whole ch h st d.now }
{
    let value = reader::only(d, 0x7C).ok_or(Fault::WrongData)?;
    auth_in(ch, h, parts::part(d, value.from, value.len))
}

fn with_admin(s: Session, admin: bool) -> Session
    ensures { result ≡ with_admin s admin }
{
    Session { admin, ..s }
}

// The host learns whether it is known, or finds the job's data in the response buffer.
#[tactic(auto, unfolding(rules::specs::Keys::opened, rules::specs::Calls::delivered, rules::specs::Calls::told_bytes, rules::specs::Calls::told_answer))]
fn done(s: Session, resp: &mut [u8], auth: Auth<'_>) -> Reply
    requires resp { 258 ≤ length resp.old }
    ensures { (m w : List ℕ) → outcome result m w resp.new ≡ (delivered resp.old (auth_made (state m w s) (Ok auth.entry))).outcome }
{
    match auth {
        Auth::Known => saying::end(with_admin(s, true), resp, Ok(())),
        Auth::Unknown => saying::end(with_admin(s, false), resp, Err(Fault::NotAllowed)),
        Auth::Opens { job, input } => {
            octets::put(resp, 0, input.bytes);
            Reply {
                answer: Answer::JobOpened {
                    key: job.key,
                    alg: job.alg,
                    len: input.bytes.len(),
                },
                session: session::with_job(s, Some(job)),
            }
        }
    }
}

// A fault's status word goes out alone.
pub fn answer(s: Session, resp: &mut [u8], said: Result<Auth<'_>, Fault>) -> Reply
    requires resp { 258 ≤ length resp.old }
    ensures { (m w : List ℕ) → outcome result m w resp.new ≡ (delivered resp.old (auth_made (state m w s) said.entry)).outcome }
{
    match said {
        Ok(auth) => done(s, resp, auth),
        Err(fault) => saying::end(s, resp, Err(fault)),
    }
}
