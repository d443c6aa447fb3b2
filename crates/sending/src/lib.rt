// Data answers as they go out: those that fit Le, and those that do not, of which the whole is held
// (01, "From bytes to a command", "GET RESPONSE"). A function that is not lent a buffer promises for every buffer,
// and `send`, which is not given the session, for every session: the bytes go out first, `saying::told` says what the host learns.

#![tactic(auto)]

ghost use Rattle.std.specs.Prelude.{◌≡◌, List, ◌++◌, ℕ, ◌+◌, ◌-◌, ◌≤◌, ◌<◌, length, take};
ghost use Rattle.rules.specs.declared.Session.{Session};
ghost use Rattle.rules.specs.Bytes.{part, splice, word};
ghost use Rattle.rules.specs.Session.{state, held_length};
ghost use Rattle.rules.specs.Command.{responds, tells};
ghost use Rattle.rules.specs.Held.{dropped, left_word, send, fetch};
ghost use Rattle.rules.specs.Calls.{outcome, delivered};
ghost use Rattle.saying.specs.Replies.{sent_reply};

use rules::{Answer, Reply, Rest, Session, Work};
use saying::Sent;

// 61 and the number of bytes left, 00 if 256 or more. A word and no `Fault`: neither this nor 9000 is one.
#[tactic(auto, unfolding(rules::specs::Held::left_word, rules::specs::Bytes::iff))]
fn left_word(n: usize) -> u16
    ensures { result ≡ left_word n }
{
    // As a cast: it fits by the test, and `u16::try_from` would have an `Err` that no call takes.
    if n < 256 { 0x6100 + n as u16 } else { 0x6100 }
}

// Two stretches, one behind the other, from the start of a buffer. A head and a body are passed as they are: a struct of the two would be made for one
// call each time.
#[tactic(auto, using(rules::proofs::Lists::buffers))]
fn join(dst: &mut [u8], head: &[u8], body: &[u8])
    requires { length head.now + length body.now ≤ length dst.old }
    ensures { dst.new ≡ splice dst.old 0 (head.now ++ body.now) }
{
    octets::put(dst, 0, head);
    octets::put(dst, head.len(), body);
}

// Data and a status word.
#[tactic(auto, using(rules::proofs::Lists::buffers), unfolding(rules::specs::Bytes::word))]
fn show(resp: &mut [u8], src: &[u8], sw: u16)
    requires resp { 258 ≤ length resp.old }
    requires short { length src.now ≤ 256 }
    ensures { resp.new ≡ splice resp.old 0 (src.now ++ word sw) }
{
    octets::put(resp, 0, src);
    octets::put_word(resp, src.len(), sw);
}

// An answer that fits Le: it is never held.
#[tactic(auto, using(rules::proofs::Lists::buffers), unfolding(rules::specs::Bytes::word))]
fn send_all(resp: &mut [u8], head: &[u8], body: &[u8])
    requires resp { 258 ≤ length resp.old }
    requires short { length head.now + length body.now ≤ 256 }
    ensures { resp.new ≡ splice resp.old 0 ((head.now ++ body.now) ++ word 0x9000) }
{
    join(resp, head, body);
    octets::put_word(resp, head.len() + body.len(), 0x9000);
}

// An answer longer than Le: the whole is held, and its first bytes go out.
#[tactic(auto, using(rules::proofs::Lists::buffers))]
fn send_part(work: &mut Work, resp: &mut [u8], le: usize, head: &[u8], body: &[u8])
    requires resp { 258 ≤ length resp.old }
    requires short { le ≤ 256 }
    requires more { le < length head.now + length body.now }
    requires room { length head.now + length body.now ≤ 13321 }
    ensures held { work.new ≡ splice work.old 0 (head.now ++ body.now) }
    ensures shown { resp.new ≡ splice resp.old 0 (take le (head.now ++ body.now) ++ word (left_word (length head.now + length body.now - le))) }
{
    let n = head.len() + body.len();
    join(work, head, body);
    show(resp, parts::part(work, 0, le), left_word(n - le));
}

// Every data answer goes out here.
#[tactic(auto, unfolding(rules::specs::Held::send, rules::specs::Calls::delivered, rules::specs::Calls::told_bytes, rules::specs::Calls::told_answer, rules::specs::Bytes::iff))]
pub fn send(work: &mut Work, resp: &mut [u8], le: usize, head: &[u8], body: &[u8]) -> Sent
    requires resp { 258 ≤ length resp.old }
    requires short { le ≤ 256 }
    requires room { length head.now + length body.now ≤ 13321 }
    ensures { (s : Session) (m : List ℕ) → outcome (sent_reply s result) m work.new resp.new ≡ (delivered resp.old (send (state m work.old s) le (head.now ++ body.now))).outcome }
{
    let whole = head.len() + body.len();
    if whole <= le {
        send_all(resp, head, body);
        return Sent {
            len: whole + 2,
            rest: None,
        };
    }
    send_part(work, resp, le, head, body);
    Sent {
        len: le + 2,
        rest: Some(Rest { whole, fetched: le }),
    }
}

// The rest of what is held goes out, and the held bytes become zero.
#[tactic(auto, unfolding(rules::specs::Calls::delivered, rules::specs::Calls::told_bytes, rules::specs::Calls::told_answer))]
fn fetch_last(s: Session, work: &mut Work, resp: &mut [u8], from: usize, n: usize) -> Reply
    requires resp { 258 ≤ length resp.old }
    requires short { n ≤ 256 }
    requires inside { from + n ≤ 13321 }
    requires held { held_length s ≤ 13321 }
    ensures { (m : List ℕ) → outcome result m work.new resp.new ≡ (delivered resp.old (tells (dropped (state m work.old s)) (responds (part work.old from n) 0x9000))).outcome }
{
    show(resp, parts::part(work, from, n), 0x9000);
    Reply {
        answer: Answer::Response { len: n + 2 },
        session: held::drop_held(s, work),
    }
}

// Up to Le more bytes of a held response.
#[tactic(auto, unfolding(rules::specs::Held::fetch, rules::specs::Calls::delivered, rules::specs::Calls::told_bytes, rules::specs::Calls::told_answer, rules::specs::Bytes::iff))]
pub fn fetch(s: Session, work: &mut Work, resp: &mut [u8], le: usize, r: Rest) -> Reply
    requires resp { 258 ≤ length resp.old }
    requires short { le ≤ 256 }
    requires some { r.fetched ≤ r.whole }
    requires room { r.whole ≤ 13321 }
    requires held { held_length s ≤ 13321 }
    ensures { (m : List ℕ) → outcome result m work.new resp.new ≡ (delivered resp.old (fetch (state m work.old s) le r.whole r.fetched)).outcome }
{
    let left = r.whole - r.fetched;
    if left <= le {
        return fetch_last(s, work, resp, r.fetched, left);
    }
    show(resp, parts::part(work, r.fetched, le), left_word(left - le));
    let rest = Rest {
        whole: r.whole,
        fetched: r.fetched + le,
    };
    Reply {
        answer: Answer::Response { len: le + 2 },
        session: session::holding(s, None, Some(rest)),
    }
}
