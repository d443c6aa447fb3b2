// Every call of the card, by lines of text: `cmd HEX`, `done HEX`, `fail`, `on I`, `session HEX`, `store HEX`, `put store N HEX` and so on.
// Each line is answered before the next is read. What a line comes to is the crate probelines; the program holds the buffers
// and knows how much of each it lends. A read or a write that fails ends the program with the error of the system; every buffer then has
// the length that it had.

#![tactic(auto)]

ghost use Rattle.std.specs.Prelude.{◌≡◌, ◌≤◌};

use feed::Feed;
use rules::Session;
use std::io;
use verbs::{Buffer, Verb};

// A number of bytes, at most N.
#[derive(Clone, Copy)]
struct UpTo<const N: usize> {
    n: usize,
    ghost fits: { n ≤ N },
}

// A buffer, of which the card is lent the first bytes.
#[derive(Drop)]
struct Lent<const N: usize> {
    bytes: [u8; N],
    len: UpTo<N>,
}

impl<const N: usize> Lent<N> {
    // The bytes that a line gives from a place on, and as many are lent from now on. False, and as many as before are lent, where they do not fit.
    fn lend(&mut self, line: &[u8], from: usize) -> bool {
        let fits = placing::place(&mut self.bytes, line, 0, from);
        if fits {
            let n = (lines::after(line, from).len() / 2).min(N);
            self.len = UpTo { n };
        }
        fits
    }
}

// The card, with its session and what it is lent.
#[derive(Drop)]
struct Desk {
    session: Session,
    store: Lent<40000>,
    work: Lent<20000>,
    resp: Lent<1024>,
}

impl Desk {
    // 01's fixed card at the start of the store.
    fn new() -> Self {
        let mut desk = Desk {
            session: session::cleared(false),
            store: Lent {
                bytes: [0; 40000],
                len: UpTo { n: 33400 },
            },
            work: Lent {
                bytes: [0; 20000],
                len: UpTo { n: 13321 },
            },
            resp: Lent {
                bytes: [0; 1024],
                len: UpTo { n: 258 },
            },
        };
        issued::fixed_card(desk.store.bytes.first_chunk_mut().unwrap());
        desk
    }

    // An arm each: the three differ in type, and the check does not follow a loan that a match chooses.
    fn lend(&mut self, b: Buffer, line: &[u8], from: usize) -> bool {
        match b {
            Buffer::Store => self.store.lend(line, from),
            Buffer::Work => self.work.lend(line, from),
            Buffer::Resp => self.resp.lend(line, from),
        }
    }

    // A line that lends no more than before: a call, or what else it comes to.
    fn call(&mut self, rt: &HostRuntime, line: &[u8]) -> io::Result<()>
        ensures { (self.new.store.len.n ≡ self.old.store.len.n) × (self.new.work.len.n ≡ self.old.work.len.n) × (self.new.resp.len.n ≡ self.old.resp.len.n) }
    {
        let mut out = [0u8; 4096];
        let Desk {
            session,
            store,
            work,
            resp,
        } = self;
        let (s, w, r) = (store.len.n, work.len.n, resp.len.n);
        let said = probelines::answer(
            *session,
            &mut store.bytes[..s],
            &mut work.bytes[..w],
            &mut resp.bytes[..r],
            line,
            &mut out,
        );
        *session = said.session;
        rt.write_all(lines::first(&out, said.len))
    }

    fn answer(&mut self, rt: &HostRuntime, line: &[u8]) -> io::Result<()> {
        if let Verb::Lend(b, from) = verbs::verb_of(line) {
            let lent = self.lend(b, line, from);
            rt.write_all(if lent { b"ok\n" } else { b"bad line\n" })
        } else {
            self.call(rt, line)
        }
    }
}

fn main(rt: HostRuntime) -> io::Result<()> {
    let mut desk = Desk::new();
    let mut line = [0u8; 100000];
    let mut feed = Feed::new(rt.stdin());
    // Nothing says that the lines end, and a proved loop does: no run takes so many turns. hexcard has its like: a closure for the turn would hold
    // the buffers, and is no plainer.
    for _ in 0..u64::MAX {
        let Some(n) = feed.next(&mut line)? else {
            break;
        };
        desk.answer(&rt, &line[..n])?;
    }
    Ok(())
}
