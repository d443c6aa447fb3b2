// What the card keeps between commands: what a command drops, and the pieces of a chain (01, "What the host lends", "From bytes to a command").
// A function that is not lent a buffer promises for every buffer.

#![tactic(auto)]

ghost use Rattle.std.specs.Prelude.{◌≡◌, List, ℕ, ◌+◌, ◌≤◌, length};
ghost use Rattle.rules.specs.Session.{state, chain_length, held_length};
ghost use Rattle.rules.specs.Held.{dropped, goes_on, based, held_piece};

use rules::{Chain, Header, Session, Work};

// ---- dropping

// The number of bytes that the work area holds. That they fit is a clause and not in the type: the setters of a session promise for any session.
fn held_length(s: Session) -> usize
    requires { held_length s ≤ 13321 }
    ensures { result ≡ held_length s }
{
    session::chain_length(s.chain) + s.rest.map_or(0, |r| r.whole)
}

// Chain and rest are dropped: the bytes held become zero.
#[tactic(auto, unfolding(rules::specs::Held::dropped, rules::specs::Bytes::zeroed))]
pub fn drop_held(s: Session, work: &mut Work) -> Session
    requires { held_length s ≤ 13321 }
    ensures dropped { (m : List ℕ) → state m work.new result ≡ dropped (state m work.old s) }
    ensures nothing { held_length result ≡ 0 }
{
    let n = held_length(s);
    octets::zero(work, 0, n);
    session::holding(s, None, None)
}

// ---- chains

// The same INS, P1 and P2.
#[tactic(auto, unfolding(rules::specs::Held::goes_on))]
fn goes_on(c: Option<Chain>, h: Header) -> bool
    ensures { result ≡ goes_on c h }
{
    c.is_some_and(|c| c.ins == h.ins && c.p1 == h.p1 && c.p2 == h.p2)
}

// The session that a chaining command starts from: with its chain, or with none.
#[tactic(auto, unfolding(rules::specs::Held::based, rules::specs::Bytes::iff))]
pub fn based(s: Session, work: &mut Work, h: Header) -> Session
    requires { held_length s ≤ 13321 }
    ensures based { (m : List ℕ) → state m work.new result ≡ based (state m work.old s) h }
    ensures held { held_length result ≤ 13321 }
{
    if goes_on(s.chain, h) {
        return s;
    }
    drop_held(s, work)
}

// A piece is added to the chain, or opens one.
#[tactic(auto, unfolding(rules::specs::Held::held_piece))]
pub fn hold_piece(s: Session, work: &mut Work, h: Header, field: &[u8]) -> Session
    requires { chain_length s.chain + length field.now ≤ 13321 }
    ensures { (m : List ℕ) → state m work.new result ≡ held_piece (state m work.old s) h field.now }
{
    let n = session::chain_length(s.chain);
    octets::put(work, n, field);
    let chain = Chain {
        ins: h.ins,
        p1: h.p1,
        p2: h.p2,
        len: n + field.len(),
    };
    session::holding(s, Some(chain), None)
}
