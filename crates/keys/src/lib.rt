// GENERAL AUTHENTICATE (01, under this name). Here its pieces, one by one; keyuse says whether a key may be used, template what the whole comes
// to, and forms which forms the template may have.

#![tactic(auto)]

mod forms;
mod input;
mod keyuse;
mod template;

ghost use Rattle.std.specs.Prelude.{◌≡◌, List, ◌++◌, ℕ, ◌+◌, ◌≤◌, length, take};
ghost use Rattle.rules.specs.Bytes.{zeroed};
ghost use Rattle.rules.specs.Session.{state, chain_length, held_length};
ghost use Rattle.rules.specs.Held.{gathered, closed};
ghost use Rattle.rules.specs.Keys.{auth_whole, auth_piece, authenticate};
ghost use Rattle.rules.specs.Calls.{outcome, delivered};

use rules::{Header, Reply, Session, Store, Work};

// The last piece is held beside the n bytes before it until the command is answered; then all of them become zero.
fn last_of_chain(
    ch: Option<u64>,
    s: Session,
    work: &mut Work,
    resp: &mut [u8],
    h: Header,
    n: usize,
    field: &[u8],
) -> Reply
    requires resp { 258 ≤ length resp.old }
    requires room { n + length field.now ≤ 13321 }
    ensures { (m : List ℕ) → outcome result m work.new resp.new ≡ (delivered resp.old (auth_whole ch h (state m (zeroed work.old (n + length field.now)) s) (take n work.old ++ field.now))).outcome }
{
    let total = n + field.len();
    octets::put(work, n, field);
    let said = template::whole(ch, h, parts::part(work, 0, total));
    let reply = template::answer(s, resp, said);
    octets::zero(work, 0, total);
    reply
}

// A command in one piece is never held.
fn last(
    ch: Option<u64>,
    s: Session,
    work: &mut Work,
    resp: &mut [u8],
    h: Header,
    field: &[u8],
) -> Reply
    requires resp { 258 ≤ length resp.old }
    requires room { chain_length s.chain + length field.now ≤ 13321 }
    ensures { (m : List ℕ) → outcome result m work.new resp.new ≡ (delivered resp.old (auth_whole ch h (closed (state m work.old s) field.now) (gathered (state m work.old s) field.now))).outcome }
{
    let t = session::holding(s, None, None);
    match s.chain {
        None => template::answer(t, resp, template::whole(ch, h, field)),
        Some(c) => last_of_chain(ch, t, work, resp, h, c.len, field),
    }
}

// Its like in putting is a function of its own; the reason stands there.
fn piece(
    ch: Option<u64>,
    s: Session,
    store: &Store,
    work: &mut Work,
    resp: &mut [u8],
    h: Header,
    field: &[u8],
) -> Reply
    requires resp { 258 ≤ length resp.old }
    requires held { held_length s ≤ 13321 }
    requires short { length field.now ≤ 255 }
    ensures { outcome result store.now work.new resp.new ≡ (delivered resp.old (auth_piece ch (state store.now work.old s) h field.now)).outcome }
{
    let n = session::chain_length(s.chain) + field.len();
    if let Err(fault) = keyuse::each(s, store, h, n) {
        return saying::drop_end(s, work, resp, Err(fault));
    }
    if h.cla == 0x10 {
        let t = held::hold_piece(s, work, h, field);
        return saying::end(t, resp, Ok(()));
    }
    last(ch, s, work, resp, h, field)
}

// The challenge is the one held when the call began: every command drops it, and 87 may compare it first.
#[tactic(auto, unfolding(rules::specs::Keys::authenticate))]
pub fn authenticate(
    ch: Option<u64>,
    s: Session,
    store: &Store,
    work: &mut Work,
    resp: &mut [u8],
    h: Header,
    field: &[u8],
) -> Reply
    requires resp { 258 ≤ length resp.old }
    requires held { held_length s ≤ 13321 }
    requires short { length field.now ≤ 255 }
    ensures { outcome result store.now work.new resp.new ≡ (delivered resp.old (authenticate ch (state store.now work.old s) h field.now)).outcome }
{
    let t = held::based(s, work, h);
    piece(ch, t, store, work, resp, h, field)
}
