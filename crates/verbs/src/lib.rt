// Verbs: the first words of a line of the program probe, and where the hex behind them begins.

#![tactic(auto)]

ghost use Rattle.std.specs.Prelude.{◌≡◌, ◌≤◌};
ghost use Rattle.verbs.specs.Verbs.{buffer_at, number_at, verb_of, starts, grown, put_of, lend_of};

use lines::What;

#[derive(Clone, Copy)]
pub enum Buffer {
    Store,
    Work,
    Resp,
}

// What a line is for; with a call, the place where its hex begins.
#[derive(Clone, Copy)]
pub enum Verb {
    Lend(Buffer, usize),
    Put(Buffer, usize, usize),
    Session,
    PowerOn(bool),
    Ask(What, usize),
    Other,
}

// ---- words

#[tactic(auto, using(crate::proofs::Laws::starts_same), unfolding(rules::specs::Bytes::part, crate::specs::Verbs::starts))]
fn starts(l: &[u8], from: usize, w: &[u8]) -> bool
    ensures { result ≡ starts l.now from w.now }
{
    lines::after(l, from).starts_with(w)
}

// The buffer that is named there, and the place behind its name.
#[tactic(auto, unfolding(rules::specs::Bytes::iff, crate::specs::Verbs::buffer_at))]
fn buffer_at(l: &[u8], from: usize) -> Option<(Buffer, usize)>
    requires { from ≤ 4 }
    ensures { result ≡ buffer_at l.now from }
{
    if starts(l, from, b"store ") {
        Some((Buffer::Store, from + 6))
    } else if starts(l, from, b"work ") {
        Some((Buffer::Work, from + 5))
    } else if starts(l, from, b"resp ") {
        Some((Buffer::Resp, from + 5))
    } else {
        None
    }
}

// ---- decimal numbers

#[tactic(auto, unfolding(crate::specs::Verbs::grown))]
fn grown(v: usize, d: u8) -> usize
    requires { (v ≤ 40001) × (48 ≤ d) }
    ensures { result ≡ grown v d }
{
    (v * 10 + usize::from(d - b'0')).min(40001)
}

// The number that stands there, and the place behind it. By hand: `str::parse` takes a whole text and fails at a large number, which here stays 40001.
#[tactic(auto, using(crate::proofs::Laws::grown_small, crate::proofs::Laws::scan_at, crate::proofs::Laws::scan_end), unfolding(rules::specs::Bytes::iff, crate::specs::Verbs::is_figure, crate::specs::Verbs::number_at))]
fn number_at(l: &[u8], at: usize) -> Option<(usize, usize)>
    ensures { result ≡ number_at l.now at }
{
    if !l.get(at)?.is_ascii_digit() {
        return None;
    }
    let mut v = 0;
    for i in at..l.len() {
        match l[i] {
            b' ' => return Some((v, i + 1)),
            d @ b'0'..=b'9' => v = grown(v, d),
            _ => return None,
        }
    }
    None
}

// ---- lines

fn put_of(l: &[u8], b: Option<(Buffer, usize)>) -> Verb
    ensures { result ≡ put_of l.now b }
{
    match b {
        Some((buffer, at)) => match number_at(l, at) {
            Some((n, next)) => Verb::Put(buffer, n, next),
            None => Verb::Other,
        },
        None => Verb::Other,
    }
}

fn lend_of(b: Option<(Buffer, usize)>) -> Verb
    ensures { result ≡ lend_of b }
{
    match b {
        Some((buffer, from)) => Verb::Lend(buffer, from),
        None => Verb::Other,
    }
}

#[tactic(auto, unfolding(rules::specs::Bytes::iff, crate::specs::Verbs::verb_of))]
pub fn verb_of(l: &[u8]) -> Verb
    ensures { result ≡ verb_of l.now }
{
    if starts(l, 0, b"cmd ") {
        Verb::Ask(What::Command, 4)
    } else if starts(l, 0, b"done ") {
        Verb::Ask(What::Done, 5)
    } else if parts::same(l, b"fail") {
        Verb::Ask(What::Failed, 4)
    } else if parts::same(l, b"on 0") {
        Verb::PowerOn(false)
    } else if parts::same(l, b"on 1") {
        Verb::PowerOn(true)
    } else if starts(l, 0, b"session ") {
        Verb::Session
    } else if starts(l, 0, b"put ") {
        put_of(l, buffer_at(l, 4))
    } else {
        lend_of(buffer_at(l, 0))
    }
}
