// Probe lines: what a line of the program probe comes to on the card. One function for each kind of line.
// Session and buffers are passed one by one, as `command` of card takes them: docs/PROMISES.md names `answer` with them.

#![tactic(auto)]

ghost use Rattle.std.specs.Prelude.{◌≡◌, List, ℕ, ◌+◌, ◌*◌, ◌≤◌, length};
ghost use Rattle.rules.specs.declared.Session.{Session};
ghost use Rattle.rules.specs.Session.{state};
ghost use Rattle.rules.specs.Calls.{powers, call};
ghost use Rattle.lines.specs.Seen.{seen};
ghost use Rattle.probelines.specs.ProbeLines.{says, powered, asks, session_at, answered, shows, taken, put};

use lines::{Said, What};
use rules::{Reply, Session};
use verbs::{Buffer, Verb};

// ---- what is printed

#[tactic(auto, using(std::proofs::lemmas::Bool::Decides::nat_tests), unfolding(crate::specs::ProbeLines::says, rules::specs::Bytes::iff))]
fn say(session: Session, ok: bool, out: &mut [u8]) -> Said
    requires { 9 ≤ length out.old }
    ensures { (s w p : List ℕ) → seen result.session s w p result.len out.new ≡ says (state s w session) p ok out.old }
{
    if ok {
        octets::put(out, 0, b"ok\n");
        Said { session, len: 3 }
    } else {
        lines::bad(session, out)
    }
}

#[tactic(auto, unfolding(crate::specs::ProbeLines::shows))]
fn shows(r: Reply, store: &[u8], work: &[u8], resp: &[u8], out: &mut [u8]) -> Said
    requires { 2 * length resp.now + 200 ≤ length out.old }
    ensures { seen result.session store.now work.now resp.now result.len out.new ≡ shows r store.now work.now resp.now out.old }
{
    let len = outcomes::write(out, r, store, work, resp);
    Said {
        session: r.session,
        len,
    }
}

// ---- calls

#[tactic(auto, unfolding(crate::specs::ProbeLines::powered))]
fn power_on(contactless: bool, store: &[u8], work: &mut [u8], resp: &[u8], out: &mut [u8]) -> Said
    requires { 2 * length resp.now + 200 ≤ length out.old }
    ensures { (ss : Session) → seen result.session store.now work.new resp.now result.len out.new ≡ powered (call (state store.now work.old ss) (powers contactless)).outcome resp.now out.old }
{
    let r = card::power_on(store, work, contactless);
    shows(r, store, work, resp, out)
}

#[tactic(auto, using(std::proofs::lemmas::Bool::Decides::nat_tests), unfolding(crate::specs::ProbeLines::asks, crate::specs::ProbeLines::called, rules::specs::Bytes::iff))]
fn ask(
    session: Session,
    store: &mut [u8],
    work: &mut [u8],
    resp: &mut [u8],
    what: What,
    digits: &[u8],
    out: &mut [u8],
) -> Said
    requires { 2 * length resp.old + 200 ≤ length out.old }
    ensures { seen result.session store.new work.new resp.new result.len out.new ≡ asks (state store.old work.old session) resp.old what digits.now out.old }
{
    if text::is_hex(digits) {
        let r = hexcalls::call(session, store, work, resp, what, digits);
        shows(r, store, work, resp, out)
    } else {
        lines::bad(session, out)
    }
}

// ---- what is lent

#[tactic(auto, using(std::proofs::lemmas::Bool::Decides::nat_tests, crate::proofs::Laws::session), unfolding(crate::specs::ProbeLines::session_at, rules::specs::Bytes::iff))]
fn session_at(digits: &[u8]) -> Option<Session>
    ensures { result ≡ session_at digits.now }
{
    if !text::is_hex(digits) || digits.len() != 128 {
        return None;
    }
    let mut bytes = [0; 64];
    text::read_hex(&mut bytes, 0, digits, 64);
    unpacked::session_in(&bytes)
}

fn take(session: Session, t: Option<Session>, out: &mut [u8]) -> Said
    requires { 9 ≤ length out.old }
    ensures { (s w p : List ℕ) → seen result.session s w p result.len out.new ≡ taken (state s w session) p t out.old }
{
    match t {
        Some(s) => say(s, true, out),
        None => say(session, false, out),
    }
}

fn put(
    session: Session,
    store: &mut [u8],
    work: &mut [u8],
    resp: &mut [u8],
    line: &[u8],
    b: Buffer,
    at: usize,
    from: usize,
    out: &mut [u8],
) -> Said
    requires { 9 ≤ length out.old }
    ensures { seen result.session store.new work.new resp.new result.len out.new ≡ put (state store.old work.old session) resp.old line.now b at from out.old }
{
    // One call with a buffer that a match chooses has no proof: the check does not follow a loan that is one of three.
    let ok = match b {
        Buffer::Store => placing::place(store, line, at, from),
        Buffer::Work => placing::place(work, line, at, from),
        Buffer::Resp => placing::place(resp, line, at, from),
    };
    say(session, ok, out)
}

// ---- a line

#[tactic(auto, unfolding(crate::specs::ProbeLines::answered, crate::specs::ProbeLines::by_verb))]
pub fn answer(
    session: Session,
    store: &mut [u8],
    work: &mut [u8],
    resp: &mut [u8],
    line: &[u8],
    out: &mut [u8],
) -> Said
    requires { 2 * length resp.old + 200 ≤ length out.old }
    ensures { seen result.session store.new work.new resp.new result.len out.new ≡ answered (state store.old work.old session) resp.old line.now out.old }
{
    match verbs::verb_of(line) {
        Verb::Put(b, at, from) => put(session, store, work, resp, line, b, at, from, out),
        Verb::Session => take(session, session_at(lines::after(line, 8)), out),
        Verb::PowerOn(contactless) => power_on(contactless, store, work, resp, out),
        Verb::Ask(what, from) => ask(
            session,
            store,
            work,
            resp,
            what,
            lines::after(line, from),
            out,
        ),
        // A buffer is lent by the program itself.
        _ => lines::bad(session, out),
    }
}
