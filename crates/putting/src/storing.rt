// PUT DATA at its last piece (01, "PUT DATA"): the form of the data, the tag, the capacity, and the object stored.
// A value read either is there or ends the command with 6A80.
ghost use Rattle.std.specs.Prelude.{◌≡◌, Some, List, ℕ, ◌+◌, ◌≤◌, length, IfOk, IfErr};
ghost use Rattle.rules.specs.declared.Answer.TheVariants.{Response};
ghost use Rattle.rules.specs.declared.Session.{Session};
ghost use Rattle.rules.specs.Bytes.{splice, word};
ghost use Rattle.rules.specs.Fault.{word_of, status_of};
ghost use Rattle.rules.specs.Session.{State, state};
ghost use Rattle.rules.specs.Command.{says};
ghost use Rattle.rules.specs.Objects.{put_of, put_form, put_slot, put_whole};
ghost use Rattle.rules.specs.Calls.{outcome, reply, delivered};
ghost use Rattle.table.specs.Slots.{index_of};

use rules::{Fault, Place, Session, Store};
use table::Slot;

// ---- the form

// What the data say: a slot, and where its value stands.
#[derive(Clone, Copy)]
struct Put {
    slot: Slot,
    value: Place,
}

// 5C 03 tag, 53, length, value, and no more; or 7E, length, value.
#[tactic(auto, unfolding(rules::specs::Objects::put_form, rules::specs::Objects::put_tagged, rules::specs::Objects::put_in, rules::specs::Objects::put_slot, reader::specs::Read::behind_first, rules::specs::Bytes::iff))]
fn put_form(d: &[u8]) -> Result<Put, Fault>
    ensures found { IfOk result (λ p. put_form d.now ≡ Some (put_of (index_of p.slot) p.value)) }
    ensures inside { IfOk result (λ p. p.value.from + p.value.len ≤ length d.now) }
    ensures none { IfErr result (λ f. (st : State) → put_slot st d.now (put_form d.now) ≡ says st (word_of f)) }
{
    if d.first() == Some(&0x7E) {
        let value = reader::only(d, 0x7E).ok_or(Fault::WrongData)?;
        return Ok(Put {
            slot: Slot::Discovery,
            value,
        });
    }
    let tag = reader::first(d, 0x5C).ok_or(Fault::WrongData)?;
    if tag.len != 3 {
        return Err(Fault::WrongData);
    }
    let value = reader::last(d, 0x5C, 0x53).ok_or(Fault::WrongData)?;
    let slot = table::slot_named(numbers::be24(d, tag.from)).ok_or(Fault::NotFound)?;
    Ok(Put { slot, value })
}

// ---- the whole

// Other form 6A80; tag not in the table 6A82; over capacity 6A84; else the slot takes the value.
#[tactic(auto, unfolding(rules::specs::Objects::put_whole, rules::specs::Calls::delivered, rules::specs::Calls::told_bytes, rules::specs::Calls::told_answer))]
pub fn put_whole(store: &mut Store, d: &[u8]) -> Result<(), Fault>
    ensures { (w b : List ℕ) (ss : Session) → outcome (reply (Response 2) ss) store.new w (splice b 0 (word (status_of result))) ≡ (delivered b (put_whole (state store.old w ss) d.now)).outcome }
{
    let Put { slot, value } = put_form(d)?;
    if !table::takes(slot, value.len) {
        return Err(Fault::NoRoom);
    }
    store::put_object(store, slot, parts::part(d, value.from, value.len));
    Ok(())
}
