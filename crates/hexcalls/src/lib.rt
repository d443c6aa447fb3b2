// Calls in hex: a command or the result of a job, whose bytes are given as hex digits.
// Session and buffers are passed one by one, as `command` of card takes them: docs/PROMISES.md names `call` with them.
// Of a long row only the first bytes are read: past 261 every command is answered 6700, and no result is that long.

#![tactic(auto)]

ghost use Rattle.std.specs.Prelude.{◌≡◌};
ghost use Rattle.rules.specs.Session.{state};
ghost use Rattle.rules.specs.Calls.{outcome, call};
ghost use Rattle.lines.specs.Asked.{asked};
ghost use Rattle.text.specs.Text.{bytes_of};

use lines::What;
use rules::{Reply, Session};

fn make(
    session: Session,
    store: &mut [u8],
    work: &mut [u8],
    resp: &mut [u8],
    what: What,
    bytes: &[u8],
) -> Reply
    ensures { outcome result store.new work.new resp.new ≡ (call (state store.old work.old session) (asked what resp.old bytes.now)).outcome }
{
    match what {
        What::Command => card::command(session, store, work, resp, bytes),
        What::Done => card::job_result(session, store, work, resp, false, bytes),
        What::Failed => card::job_result(session, store, work, resp, true, &[]),
    }
}

pub fn call(
    session: Session,
    store: &mut [u8],
    work: &mut [u8],
    resp: &mut [u8],
    what: What,
    digits: &[u8],
) -> Reply
    ensures { outcome result store.new work.new resp.new ≡ (call (state store.old work.old session) (asked what resp.old (bytes_of digits.now))).outcome }
{
    let mut bytes = [0u8; 262];
    let n = (digits.len() / 2).min(262);
    text::read_hex(&mut bytes, 0, digits, n);
    make(session, store, work, resp, what, &bytes[..n])
}
