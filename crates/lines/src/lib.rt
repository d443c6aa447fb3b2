// Lines: the start of a row and what stands behind it; what a line asks and what it leaves, and a line that nobody understands.

#![tactic(auto)]

ghost use Rattle.std.specs.Prelude.{◌≡◌, List, ℕ, ◌≤◌, length, take, drop};
ghost use Rattle.rules.specs.Session.{state};
ghost use Rattle.lines.specs.Seen.{bad_line, seen, tells};

use rules::Session;

// What a line asks of the card: a command, that a job is done, or that it failed.
#[derive(Clone, Copy)]
pub enum What {
    Command,
    Done,
    Failed,
}

// What a line leaves: the session, and the number of bytes that are to be printed, in the buffer of whoever asked.
#[derive(Clone, Copy)]
pub struct Said {
    pub session: Session,
    pub len: usize,
}

// The first k bytes, or all where there are fewer.
pub fn first(s: &[u8], k: usize) -> &[u8]
    ensures { result.now ≡ take k s.now }
{
    s.get(..k).unwrap_or(s)
}

// What stands behind the first n bytes; nothing where there are fewer.
pub fn after(s: &[u8], n: usize) -> &[u8]
    ensures { result.now ≡ drop n s.now }
{
    s.get(n..).unwrap_or_default()
}

// "bad line", and the card as it was.
pub fn bad(session: Session, out: &mut [u8]) -> Said
    requires { 9 ≤ length out.old }
    ensures { (s w p : List ℕ) → seen result.session s w p result.len out.new ≡ tells (state s w session) p bad_line out.old }
{
    octets::put(out, 0, b"bad line\n");
    Said { session, len: 9 }
}
