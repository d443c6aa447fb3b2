// The card: the three calls of the host, power-on, command and job result, for whatever is handed in (01, "Calls the host may not make").
// Each call's promise is one equation to the book: what is seen of it is what `call` says. A refused call changes no byte.
// Power-on and the result of a job are handed on from crates of their own. Here the command: whether the host may make it, its checks, and which rule
// answers it (01, "Command by command"); answers has SELECT and GET RESPONSE.

#![tactic(auto)]

mod answers;

ghost use Rattle.std.specs.Prelude.{◌≡◌, true, List, ℕ, ◌≤◌, length};
ghost use Rattle.rules.specs.Store.{well_formed};
ghost use Rattle.rules.specs.Session.{state, held_length, rest_ok, possible};
ghost use Rattle.rules.specs.Command.{field_of};
ghost use Rattle.rules.specs.Held.{dropped};
ghost use Rattle.rules.specs.Objects.{select, get_data};
ghost use Rattle.rules.specs.Calls.{outcome, delivered, ruled, command, sends, call};
ghost use Rattle.apdu.specs.Shape.{Shaped};

pub use jobs::job_result;
pub use power::power_on;
use rules::{Answer, Header, Reply, Session, Store, Work};

// ---- SELECT and GET DATA drop what is held first

fn select(s: Session, work: &mut Work, resp: &mut [u8], h: Header, field: &[u8]) -> Reply
    requires resp { 258 ≤ length resp.old }
    requires le { h.le ≤ 256 }
    requires held { held_length s ≤ 13321 }
    ensures { (m : List ℕ) → outcome result m work.new resp.new ≡ (delivered resp.old (select (dropped (state m work.old s)) h field.now)).outcome }
{
    let t = held::drop_held(s, work);
    answers::select(t, work, resp, h, field)
}

fn get_data(
    s: Session,
    store: &Store,
    work: &mut Work,
    resp: &mut [u8],
    h: Header,
    field: &[u8],
) -> Reply
    requires resp { 258 ≤ length resp.old }
    requires le { h.le ≤ 256 }
    requires well_formed { well_formed store.now ≡ true }
    requires held { held_length s ≤ 13321 }
    ensures { outcome result store.now work.new resp.new ≡ (delivered resp.old (get_data (dropped (state store.now work.old s)) h field.now)).outcome }
{
    let t = held::drop_held(s, work);
    objects::get_data(t, store, work, resp, h, field)
}

// ---- which rule answers

// VERIFY, CHANGE REFERENCE DATA and RESET RETRY COUNTER are called from one place: a function with one caller becomes a part of it, and no session is handed over.
#[tactic(auto, unfolding(rules::specs::Calls::ruled, pin::specs::Rule::pin_rule, rules::specs::Bytes::iff))]
fn rule(
    ch: Option<u64>,
    s: Session,
    store: &mut Store,
    work: &mut Work,
    resp: &mut [u8],
    h: Header,
    field: &[u8],
) -> Reply
    requires resp { 258 ≤ length resp.old }
    requires le { h.le ≤ 256 }
    requires well_formed { well_formed store.old ≡ true }
    requires rest { rest_ok s.rest ≡ true }
    requires held { held_length s ≤ 13321 }
    requires short { length field.now ≤ 255 }
    ensures { outcome result store.new work.new resp.new ≡ (delivered resp.old (ruled (state store.old work.old s) ch h field.now)).outcome }
{
    match h.ins {
        0xA4 => select(s, work, resp, h, field),
        0xCB => get_data(s, store, work, resp, h, field),
        0xC0 => answers::get_response(s, work, resp, h, field),
        0x20 | 0x24 | 0x2C => pin::command(s, store, work, resp, h, field),
        0x87 => keys::authenticate(ch, s, store, work, resp, h, field),
        _ => putting::put_data(s, store, work, resp, h, field),
    }
}

// ---- the call

// The data of a command: that stretch of it.
#[tactic(auto, unfolding(rules::specs::Command::field_of, rules::specs::Bytes::part))]
fn field(c: &[u8], h: Header) -> &[u8]
    requires { Shaped c.now h }
    ensures field { result.now ≡ field_of c.now h }
    ensures short { length result.now ≤ 255 }
{
    if h.lc == 0 {
        return &[];
    }
    parts::part(c, 5, h.lc)
}

// Every command drops a held challenge; 87 may compare it first.
fn obey(session: Session, store: &mut Store, work: &mut Work, resp: &mut [u8], cmd: &[u8]) -> Reply
    requires resp { 258 ≤ length resp.old }
    requires well_formed { well_formed store.old ≡ true }
    requires possible { possible session ≡ true }
    ensures { outcome result store.new work.new resp.new ≡ (delivered resp.old (command (state store.old work.old session) cmd.now)).outcome }
{
    let s = session::with_challenge(session, None);
    match apdu::check(session.contactless, cmd) {
        Err(fault) => saying::drop_end(s, work, resp, Err(fault)),
        Ok(h) => rule(session.challenge, s, store, work, resp, h, field(cmd, h)),
    }
}

pub fn command(
    session: Session,
    store: &mut [u8],
    work: &mut [u8],
    resp: &mut [u8],
    cmd: &[u8],
) -> Reply
    ensures { outcome result store.new work.new resp.new ≡ (call (state store.old work.old session) (sends resp.old cmd.now)).outcome }
{
    match permit::command(
        wellformed::well_formed(store),
        session,
        resp.len(),
        work.len(),
    ) {
        Err(refusal) => Reply {
            answer: Answer::Refused(refusal),
            session,
        },
        Ok(()) => obey(
            session,
            store.as_mut_array().unwrap(),
            work.as_mut_array().unwrap(),
            resp,
            cmd,
        ),
    }
}
