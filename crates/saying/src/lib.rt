// A status word alone, as it goes out, and what the host is told of a data answer that went out. A function that is not lent a buffer
// promises for every buffer.

#![tactic(auto)]

ghost use Rattle.std.specs.Prelude.{◌≡◌, List, ℕ, ◌≤◌, length};
ghost use Rattle.rules.specs.Fault.{status_of};
ghost use Rattle.rules.specs.Session.{state, held_length};
ghost use Rattle.rules.specs.Command.{says};
ghost use Rattle.rules.specs.Held.{dropped};
ghost use Rattle.rules.specs.Calls.{outcome, delivered};
ghost use Rattle.saying.specs.Replies.{sent_reply};

use rules::{Answer, Fault, Reply, Rest, Session, Work};

// ---- a status word

// A status word alone: any word, as its promise is for every word. `end` below takes what a rule said.
#[tactic(auto, unfolding(rules::specs::Calls::delivered, rules::specs::Calls::told_bytes, rules::specs::Calls::told_answer))]
pub fn say(s: Session, resp: &mut [u8], sw: u16) -> Reply
    requires { 258 ≤ length resp.old }
    ensures { (m w : List ℕ) → outcome result m w resp.new ≡ (delivered resp.old (says (state m w s) sw)).outcome }
{
    octets::put_word(resp, 0, sw);
    Reply {
        answer: Answer::Response { len: 2 },
        session: s,
    }
}

// What is held is dropped, and a status word goes out.
pub fn drop_say(s: Session, work: &mut Work, resp: &mut [u8], sw: u16) -> Reply
    requires resp { 258 ≤ length resp.old }
    requires held { held_length s ≤ 13321 }
    ensures { (m : List ℕ) → outcome result m work.new resp.new ≡ (delivered resp.old (says (dropped (state m work.old s)) sw)).outcome }
{
    let t = held::drop_held(s, work);
    say(t, resp, sw)
}

// ---- how a command ends: done, or with a fault

fn word(said: Result<(), Fault>) -> u16
    ensures { result ≡ status_of said }
{
    match said {
        Ok(()) => 0x9000,
        Err(fault) => u16::from(fault),
    }
}

pub fn end(s: Session, resp: &mut [u8], said: Result<(), Fault>) -> Reply
    requires { 258 ≤ length resp.old }
    ensures { (m w : List ℕ) → outcome result m w resp.new ≡ (delivered resp.old (says (state m w s) (status_of said))).outcome }
{
    say(s, resp, word(said))
}

// What is held is dropped.
pub fn drop_end(s: Session, work: &mut Work, resp: &mut [u8], said: Result<(), Fault>) -> Reply
    requires resp { 258 ≤ length resp.old }
    requires held { held_length s ≤ 13321 }
    ensures { (m : List ℕ) → outcome result m work.new resp.new ≡ (delivered resp.old (says (dropped (state m work.old s)) (status_of said))).outcome }
{
    drop_say(s, work, resp, word(said))
}

// ---- a data answer

// What went out: the length of the response, and what is left where it is not all of the answer.
#[derive(Clone, Copy)]
pub struct Sent {
    pub len: usize,
    pub rest: Option<Rest>,
}

// What the host learns of it.
pub fn told(s: Session, x: Sent) -> Reply
    ensures { result ≡ sent_reply s x }
{
    let session = match x.rest {
        None => s,
        Some(_) => session::holding(s, None, x.rest),
    };
    Reply {
        answer: Answer::Response { len: x.len },
        session,
    }
}
