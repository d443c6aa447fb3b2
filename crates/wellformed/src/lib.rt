// When a store is well formed (01, "What the host lends"): a function for each test of the book.

#![tactic(auto)]

ghost use Rattle.std.specs.Prelude.{◌≡◌, true, ◌+◌, ◌≤◌, ◌<◌, length, take, drop};
ghost use Rattle.rules.specs.Bytes.{all_true, all, same_bytes, part};
ghost use Rattle.rules.specs.Reference.{pin_form, reference_ok, reference_at};
ghost use Rattle.rules.specs.Store.{mark, algorithm_ok, slot_ok, store_tests, well_formed};
ghost use Rattle.table.specs.Slots.{index_of};

use rules::Store;
use table::Slot;

// The mark OPC, version 1, three zero bytes.
const MARK: u64 = 0x4F50_4300_0100_0000;

fn marked(store: &Store) -> bool
    ensures { result ≡ same_bytes (part store.now 0 8) mark }
{
    numbers::be64(store, 0) == MARK
}

// The limit is 1 to 15, the tries left 0 to the limit.
#[tactic(auto, unfolding(rules::specs::Reference::reference_ok, rules::specs::Reference::reference_at))]
fn reference_ok(store: &Store, at: usize) -> bool
    requires { at + 10 ≤ 33400 }
    ensures { result ≡ reference_ok (reference_at store.now at) }
{
    let limit = store[at];
    (1..=15).contains(&limit) && store[at + 1] <= limit
}

// The stored PIN has PIN form.
#[tactic(auto, unfolding(rules::specs::Bytes::part))]
fn pin_ok(store: &Store) -> bool
    ensures { result ≡ pin_form (part store.now 10 8) }
{
    pinform::pin_form(&store[10..18])
}

// 00 absent, 07 RSA 2048, 11 P-256. A byte and no enum: any byte may stand in a store.
#[tactic(auto, unfolding(rules::specs::Store::algorithm_ok))]
fn algorithm_ok(a: u8) -> bool
    ensures { result ≡ algorithm_ok a }
{
    matches!(a, 0x00 | 0x07 | 0x11)
}

fn keys_ok(store: &Store) -> bool
    ensures { result ≡ all algorithm_ok (part store.now 28 4) }
{
    store[28..32].iter().all(|a| algorithm_ok(*a))
}

// No length passes its capacity.
#[tactic(auto, using(rules::proofs::Slots::slot_fits_lem, table::proofs::Slots::below), unfolding(rules::specs::Store::slot_ok, rules::specs::Store::slot_length))]
fn slot_ok(store: &Store, slot: Slot) -> bool
    ensures { result ≡ slot_ok store.now (index_of slot) }
{
    numbers::be16(store, table::offset(slot)) <= table::capacity(slot)
}

fn slots_ok(store: &Store) -> bool
    ensures { result ≡ all_true (drop 6 (store_tests store.now)) }
{
    let slots = table::SLOTS;
    slots.iter().all(|slot| slot_ok(store, *slot))
}

// The header and the two records: the tests between the size and the slots. They stand apart so that each of the two halves becomes a part of its
// caller, and the store is not handed on through memory.
#[tactic(auto, unfolding(rules::specs::Store::store_tests))]
fn head_ok(store: &Store) -> bool
    ensures { result ≡ all_true (take 5 (drop 1 (store_tests store.now))) }
{
    marked(store)
        && reference_ok(store, 8)
        && reference_ok(store, 18)
        && pin_ok(store)
        && keys_ok(store)
}

#[tactic(auto, using(crate::proofs::Laws::in_parts))]
pub fn well_formed(store: &[u8]) -> bool
    ensures { result ≡ well_formed store.now }
{
    let Some(store) = store.as_array() else {
        return false;
    };
    head_ok(store) && slots_ok(store)
}
