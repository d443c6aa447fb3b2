// The table of 01: each slot's capacity, offset and tag. Its read conditions are in objects, which alone asks for them.

#![tactic(auto)]

ghost use Rattle.std.specs.Prelude.{◌≡◌, List, ℕ, ◌≤◌, IsTrue};
ghost use Rattle.rules.specs.Store.{capacity, offset, slot_named, takes};
ghost use Rattle.table.specs.Slots.{index_of, index_in};

// The slots, in the table's order; the book numbers them from 0.
#[derive(Clone, Copy)]
pub enum Slot {
    Capability,
    Chuid,
    Certificate9A,
    Fingerprints,
    Security,
    Face,
    Certificate9E,
    Certificate9C,
    Certificate9D,
    Printed,
    KeyHistory,
    Discovery,
}

// All of them, the last first, as the book goes over them.
pub const SLOTS: [Slot; 12] = [
    Slot::Discovery,
    Slot::KeyHistory,
    Slot::Printed,
    Slot::Certificate9D,
    Slot::Certificate9C,
    Slot::Certificate9E,
    Slot::Face,
    Slot::Security,
    Slot::Fingerprints,
    Slot::Certificate9A,
    Slot::Chuid,
    Slot::Capability,
];

// ---- columns, each a `match` with its own numbers: a constant array would be built anew at every look-up

#[tactic(auto, unfolding(rules::specs::Store::capacity))]
pub fn capacity(slot: Slot) -> usize
    ensures { result ≡ capacity (index_of slot) }
{
    match slot {
        Slot::Capability => 512,
        Slot::Chuid => 4096,
        Slot::Certificate9A => 2048,
        Slot::Fingerprints => 4096,
        Slot::Security => 2048,
        Slot::Face => 13312,
        Slot::Certificate9E => 2048,
        Slot::Certificate9C => 2048,
        Slot::Certificate9D => 2048,
        Slot::Printed => 512,
        Slot::KeyHistory => 512,
        Slot::Discovery => 64,
    }
}

#[tactic(auto, unfolding(rules::specs::Store::offset))]
pub fn offset(slot: Slot) -> usize
    ensures { result ≡ offset (index_of slot) }
{
    match slot {
        Slot::Capability => 32,
        Slot::Chuid => 546,
        Slot::Certificate9A => 4644,
        Slot::Fingerprints => 6694,
        Slot::Security => 10792,
        Slot::Face => 12842,
        Slot::Certificate9E => 26156,
        Slot::Certificate9C => 28206,
        Slot::Certificate9D => 30256,
        Slot::Printed => 32306,
        Slot::KeyHistory => 32820,
        Slot::Discovery => 33334,
    }
}

// The slot can take an object of n bytes.
#[tactic(auto, unfolding(rules::specs::Store::takes))]
pub fn takes(slot: Slot, n: usize) -> bool
    ensures takes { (s : List ℕ) → result ≡ takes s (index_of slot) n }
    ensures fits { IsTrue result → n ≤ capacity (index_of slot) }
{
    n <= capacity(slot)
}

// The slot with that tag of three bytes.
#[tactic(auto, unfolding(rules::specs::Store::slot_named, rules::specs::Store::named, rules::specs::Store::tag_of, rules::specs::Store::tag_bytes, rules::specs::Bytes::iff))]
pub fn slot_named(tag: u32) -> Option<Slot>
    ensures { index_in result ≡ slot_named 3 tag }
{
    match tag {
        0x5FC107 => Some(Slot::Capability),
        0x5FC102 => Some(Slot::Chuid),
        0x5FC105 => Some(Slot::Certificate9A),
        0x5FC103 => Some(Slot::Fingerprints),
        0x5FC106 => Some(Slot::Security),
        0x5FC108 => Some(Slot::Face),
        0x5FC101 => Some(Slot::Certificate9E),
        0x5FC10A => Some(Slot::Certificate9C),
        0x5FC10B => Some(Slot::Certificate9D),
        0x5FC109 => Some(Slot::Printed),
        0x5FC10C => Some(Slot::KeyHistory),
        _ => None,
    }
}
