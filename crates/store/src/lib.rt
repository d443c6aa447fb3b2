// Store: its objects and its keys (01, "What the host lends").

#![tactic(auto)]

ghost use Rattle.std.specs.Prelude.{◌≡◌, true, ℕ, ◌+◌, ◌≤◌, ◌<◌, length};
ghost use Rattle.rules.specs.Bytes.{part};
ghost use Rattle.rules.specs.Store.{capacity, object_of, slot_bytes, put_object, key_place, algorithm_of, well_formed};
ghost use Rattle.table.specs.Slots.{index_of};

use rules::Store;
use table::Slot;

// ---- objects

// The object itself, where it stands; empty where there is none. That a store is well formed is a clause and not in a type: the host lends its bytes
// anew for each call, and `card` looks at them then.
pub fn object(store: &Store, slot: Slot) -> &[u8]
    requires { well_formed store.now ≡ true }
    ensures object { result.now ≡ object_of store.now (index_of slot) }
    ensures short { length result.now ≤ 13312 }
{
    let at = table::offset(slot);
    parts::part(store, at + 2, numbers::be16(store, at))
}

// A slot, whichever has that capacity: the length, the value, and zeros to its end.
fn write_slot(part: &mut [u8], value: &[u8])
    requires room { 2 + length value.now ≤ length part.old }
    requires short { length value.now < 65536 }
    ensures { (i : ℕ) → length part.old ≡ 2 + capacity i → part.new ≡ slot_bytes i value.now }
{
    let n = value.len();
    let rest = part.len() - 2 - n;
    // As a cast: it fits by the clause, and `u16::try_from` would have an `Err` that no call takes.
    octets::put_word(part, 0, n as u16);
    octets::put(part, 2, value);
    octets::zero(part, 2 + n, rest);
}

// 01, "PUT DATA": the slot takes the value, the bytes after it in the slot become zero.
pub fn put_object(store: &mut Store, slot: Slot, value: &[u8])
    requires { length value.now ≤ capacity (index_of slot) }
    ensures { store.new ≡ put_object store.old (index_of slot) value.now }
{
    let from = table::offset(slot);
    let to = from + 2 + table::capacity(slot);
    write_slot(&mut store[from..to], value);
}

// ---- keys

// Keys are bytes: the reason stands at `Session` of rules.
#[tactic(auto, unfolding(rules::specs::Store::key_place, rules::specs::Bytes::iff))]
fn key_place(key: u8) -> usize
    ensures { result ≡ key_place key }
{
    match key {
        0x9A => 28,
        0x9C => 29,
        0x9D => 30,
        _ => 31,
    }
}

// The algorithm of key 9A, 9C, 9D or 9E.
#[tactic(auto, using(crate::proofs::Laws::place_below), unfolding(rules::specs::Store::algorithm_of))]
pub fn algorithm(store: &Store, key: u8) -> u8
    ensures { result ≡ algorithm_of store.now key }
{
    store[key_place(key)]
}
