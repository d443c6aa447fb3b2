// GET DATA (01, "GET DATA"): what is asked for, whether it may be read now, and the object as it goes out.

#![tactic(auto)]

mod access;

ghost use Rattle.std.specs.Prelude.{◌≡◌, Some, true, List, ℕ, ◌≤◌, length, IfOk, IfErr};
ghost use Rattle.rules.specs.Fault.{word_of};
ghost use Rattle.rules.specs.Store.{well_formed};
ghost use Rattle.rules.specs.Session.{State, state};
ghost use Rattle.rules.specs.Command.{says};
ghost use Rattle.rules.specs.Objects.{asked_in, object_tag, give_object, get_slot, get_asked, get_data};
ghost use Rattle.rules.specs.Calls.{outcome, delivered};
ghost use Rattle.table.specs.Slots.{index_of};

use rules::{Fault, Header, Place, Reply, Session, Store, Work};
use table::Slot;

// ---- what is asked for

// 5C 03 and three bytes, or 5C 01 7E, and no more.
#[tactic(auto, unfolding(rules::specs::Objects::asked_in, rules::specs::Objects::tag_in, rules::specs::Objects::get_asked, rules::specs::Objects::get_slot, rules::specs::Bytes::iff))]
fn asked_in(d: &[u8]) -> Result<Slot, Fault>
    ensures found { IfOk result (λ slot. asked_in d.now ≡ Some (index_of slot)) }
    ensures none { IfErr result (λ f. (st : State) (le : ℕ) → get_asked st le (asked_in d.now) ≡ says st (word_of f)) }
{
    let Place { from, len } = reader::only(d, 0x5C).ok_or(Fault::WrongData)?;
    match len {
        3 => table::slot_named(numbers::be24(d, from)).ok_or(Fault::NotFound),
        1 if d[from] == 0x7E => Ok(Slot::Discovery),
        _ => Err(Fault::WrongData),
    }
}

// ---- the object as it goes out

// Tag 53 (7E for Discovery).
#[tactic(auto, unfolding(rules::specs::Objects::object_tag, rules::specs::Bytes::iff))]
fn object_tag(slot: Slot) -> u8
    ensures { result ≡ object_tag (index_of slot) }
{
    match slot {
        Slot::Discovery => 0x7E,
        _ => 0x53,
    }
}

#[tactic(auto, unfolding(rules::specs::Objects::give_object, rules::specs::Bytes::iff))]
fn give_object(
    s: Session,
    work: &mut Work,
    resp: &mut [u8],
    le: usize,
    slot: Slot,
    v: &[u8],
) -> Reply
    requires resp { 258 ≤ length resp.old }
    requires le { le ≤ 256 }
    requires short { length v.now ≤ 13312 }
    ensures { (m : List ℕ) → outcome result m work.new resp.new ≡ (delivered resp.old (give_object (state m work.old s) le (index_of slot) v.now)).outcome }
{
    if v.is_empty() {
        return saying::end(s, resp, Err(Fault::NotFound));
    }
    let mut head = [0; 4];
    let n = heads::write_head(&mut head, 0, object_tag(slot), v.len());
    let sent = sending::send(work, resp, le, &head[..n], v);
    saying::told(s, sent)
}

// Reading not allowed now: 6982, whether or not there is an object.
#[tactic(auto, using(table::proofs::Slots::below), unfolding(rules::specs::Objects::get_slot, rules::specs::Bytes::iff))]
fn get_slot(
    s: Session,
    store: &Store,
    work: &mut Work,
    resp: &mut [u8],
    le: usize,
    slot: Slot,
) -> Reply
    requires resp { 258 ≤ length resp.old }
    requires le { le ≤ 256 }
    requires well_formed { well_formed store.now ≡ true }
    ensures { outcome result store.now work.new resp.new ≡ (delivered resp.old (get_slot (state store.now work.old s) le (index_of slot))).outcome }
{
    if !access::readable(s, slot) {
        return saying::end(s, resp, Err(Fault::NotAllowed));
    }
    give_object(s, work, resp, le, slot, store::object(store, slot))
}

#[tactic(auto, unfolding(rules::specs::Objects::get_data, rules::specs::Objects::get_asked, rules::specs::Bytes::iff))]
pub fn get_data(
    s: Session,
    store: &Store,
    work: &mut Work,
    resp: &mut [u8],
    h: Header,
    field: &[u8],
) -> Reply
    requires resp { 258 ≤ length resp.old }
    requires le { h.le ≤ 256 }
    requires well_formed { well_formed store.now ≡ true }
    ensures { outcome result store.now work.new resp.new ≡ (delivered resp.old (get_data (state store.now work.old s) h field.now)).outcome }
{
    if h.p1 != 0x3F || h.p2 != 0xFF {
        return saying::end(s, resp, Err(Fault::WrongParameters));
    }
    match asked_in(field) {
        Ok(slot) => get_slot(s, store, work, resp, h.le, slot),
        Err(fault) => saying::end(s, resp, Err(fault)),
    }
}
