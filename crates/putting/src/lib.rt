// PUT DATA (01, "PUT DATA"). Here the rules for each piece, and the pieces of a chain; storing has what the whole comes to at the last piece.

#![tactic(auto)]

mod storing;

ghost use Rattle.std.specs.Prelude.{◌≡◌, ◌++◌, ◌+◌, ◌≤◌, length, take, OnOk};
ghost use Rattle.rules.specs.declared.Session.{Session};
ghost use Rattle.rules.specs.Bytes.{splice, zeros};
ghost use Rattle.rules.specs.Fault.{worded, passes};
ghost use Rattle.rules.specs.Session.{State, state, held_length};
ghost use Rattle.rules.specs.Objects.{put_whole, put_each, put_piece, put_data};
ghost use Rattle.rules.specs.Calls.{outcome, delivered};

use rules::{Fault, Header, Reply, Session, Store, Work};

#[tactic(auto, unfolding(rules::specs::Objects::put_each, rules::specs::Bytes::iff))]
fn put_each(admin: bool, h: Header, n: usize) -> Result<(), Fault>
    ensures each { (st : State) → st.session.admin ≡ admin → worded result ≡ passes (put_each st h n) }
    ensures room { OnOk result (n ≤ 13321) }
{
    if h.p1 != 0x3F || h.p2 != 0xFF {
        return Err(Fault::WrongParameters);
    }
    if !admin {
        return Err(Fault::NotAllowed);
    }
    if 13321 < n {
        return Err(Fault::NoRoom);
    }
    Ok(())
}

// The last piece of an open chain is held beside the others until the whole is answered; then all of it becomes zero.
fn put_chain(
    s: Session,
    store: &mut Store,
    work: &mut Work,
    resp: &mut [u8],
    len: usize,
    field: &[u8],
) -> Reply
    requires resp { 258 ≤ length resp.old }
    requires room { len + length field.now ≤ 13321 }
    ensures { outcome result store.new work.new resp.new ≡ (delivered resp.old (put_whole (state store.old (splice work.old 0 (zeros (len + length field.now))) s) (take len work.old ++ field.now))).outcome }
{
    let n = len + field.len();
    octets::put(work, len, field);
    let said = storing::put_whole(store, parts::part(work, 0, n));
    octets::zero(work, 0, n);
    saying::end(s, resp, said)
}

// Its like in keys is a function of its own: as one with a closure for the last piece, what the closure does to the store would be said through
// `F.post`. Their laws are one (held/proofs/Laws).
fn put_piece(
    s: Session,
    store: &mut Store,
    work: &mut Work,
    resp: &mut [u8],
    h: Header,
    field: &[u8],
) -> Reply
    requires resp { 258 ≤ length resp.old }
    requires held { held_length s ≤ 13321 }
    requires short { length field.now ≤ 255 }
    ensures { outcome result store.new work.new resp.new ≡ (delivered resp.old (put_piece (state store.old work.old s) h field.now)).outcome }
{
    let n = session::chain_length(s.chain) + field.len();
    if let Err(fault) = put_each(s.admin, h, n) {
        return saying::drop_end(s, work, resp, Err(fault));
    }
    if h.cla == 0x10 {
        let t = held::hold_piece(s, work, h, field);
        return saying::end(t, resp, Ok(()));
    }
    let t = session::holding(s, None, None);
    match s.chain {
        None => saying::end(t, resp, storing::put_whole(store, field)),
        Some(c) => put_chain(t, store, work, resp, c.len, field),
    }
}

#[tactic(auto, unfolding(rules::specs::Objects::put_data))]
pub fn put_data(
    s: Session,
    store: &mut Store,
    work: &mut Work,
    resp: &mut [u8],
    h: Header,
    field: &[u8],
) -> Reply
    requires resp { 258 ≤ length resp.old }
    requires held { held_length s ≤ 13321 }
    requires short { length field.now ≤ 255 }
    ensures { outcome result store.new work.new resp.new ≡ (delivered resp.old (put_data (state store.old work.old s) h field.now)).outcome }
{
    let t = held::based(s, work, h);
    put_piece(t, store, work, resp, h, field)
}
