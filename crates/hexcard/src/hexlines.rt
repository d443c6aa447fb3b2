// Hex lines: the program of 01's "Checked examples", line by line: what a line comes to on the card.
// Session and buffers are passed one by one, as `command` of card takes them: docs/READING.md names `answer` with them.
ghost use Rattle.std.specs.Prelude.{◌≡◌, ◌++◌, [], ◌∷◌, ◌+◌, ◌*◌, ◌≤◌, length, take};
ghost use Rattle.rules.specs.Bytes.{splice};
ghost use Rattle.rules.specs.Session.{state};
ghost use Rattle.rules.specs.Calls.{outcome};
ghost use Rattle.lines.specs.Seen.{seen};
ghost use Rattle.text.specs.Text.{bytes_of};
ghost use Rattle.printing.specs.Printing.{hex_of};
ghost use Rattle.hexcard.specs.HexLines.{is_command, closed, answered, shown, turn};

use lines::{Said, What};
use rules::{Answer, Reply, Session};

#[tactic(auto, using(std::proofs::lemmas::Bool::Decides::nat_tests), unfolding(crate::specs::HexLines::is_command))]
fn is_command(line: &[u8]) -> bool
    ensures { result ≡ is_command line.now }
{
    !line.is_empty() && text::is_hex(line)
}

// A job that is opened is reported as failed at once.
#[tactic(auto, unfolding(crate::specs::HexLines::closed))]
fn close(r: Reply, store: &mut [u8], work: &mut [u8], resp: &mut [u8]) -> Reply
    ensures { outcome result store.new work.new resp.new ≡ closed r.answer (outcome r store.old work.old resp.old) }
{
    match r.answer {
        Answer::JobOpened { .. } => {
            hexcalls::call(r.session, store, work, resp, What::Failed, &[])
        }
        _ => r,
    }
}

#[tactic(auto, unfolding(crate::specs::HexLines::turn))]
fn turn(session: Session, store: &mut [u8], work: &mut [u8], resp: &mut [u8], line: &[u8]) -> Reply
    ensures { outcome result store.new work.new resp.new ≡ turn (state store.old work.old session) resp.old (bytes_of line.now) }
{
    let r = hexcalls::call(session, store, work, resp, What::Command, line);
    close(r, store, work, resp)
}

// How many bytes of the response buffer are printed.
fn shown(a: Answer) -> usize
    ensures { result ≡ shown a }
{
    match a {
        Answer::Response { len } => len,
        _ => 0,
    }
}

#[tactic(auto, using(rules::proofs::Lists::buffers, printing::proofs::Laws::hex, std::proofs::lemmas::Grind::common_steps))]
fn print(a: Answer, resp: &[u8], out: &mut [u8]) -> usize
    requires { 2 * length resp.now + 1 ≤ length out.old }
    ensures { (result ≡ length (hex_of (take (shown a) resp.now) ++ (10 ∷ []))) × (out.new ≡ splice out.old 0 (hex_of (take (shown a) resp.now) ++ (10 ∷ []))) }
{
    let end = printing::write_hex(out, 0, lines::first(resp, shown(a)));
    octets::put_byte(out, end, b'\n');
    end + 1
}

#[tactic(auto, using(std::proofs::lemmas::Bool::Decides::nat_tests), unfolding(crate::specs::HexLines::answered, crate::specs::HexLines::told, crate::specs::HexLines::printed, rules::specs::Bytes::iff))]
pub fn answer(
    session: Session,
    store: &mut [u8],
    work: &mut [u8],
    resp: &mut [u8],
    line: &[u8],
    out: &mut [u8],
) -> Said
    requires { 2 * length resp.old + 9 ≤ length out.old }
    ensures { seen result.session store.new work.new resp.new result.len out.new ≡ answered (state store.old work.old session) resp.old line.now out.old }
{
    if is_command(line) {
        let Reply { session, answer } = turn(session, store, work, resp, line);
        let len = print(answer, resp, out);
        Said { session, len }
    } else {
        lines::bad(session, out)
    }
}
