// Tries: the tries left of a reference in a store, read, charged and restored (01, "PIN form", "What the host lends").
// Each function lends the ten bytes of its reference, and no other byte of the store is written.
ghost use Rattle.std.specs.Prelude.{◌≡◌, Bool, true, false, ◌-◌, MatchResult};
ghost use Rattle.rules.specs.declared.Fault.TheVariants.{Blocked};
ghost use Rattle.rules.specs.Reference.{none_left};
ghost use Rattle.rules.specs.Command.{charge, restore};
ghost use Rattle.rules.specs.Pin.{the, stepped, refs_in, refs_onto};

use super::secret::Secret;
use rules::{Fault, Store};
use std::marker::PhantomData;

// The tries left of W. A charge on one reference cannot be stored to the other: its type says whose it is.
#[derive(Clone, Copy)]
pub struct Tries<W> {
    pub left: u8,
    of: PhantomData<W>,
}

pub fn left<W: Secret>(store: &Store) -> Tries<W>
    ensures { (b : Bool) → result.left ≡ (the (refs_in store.now b) W.which).left }
{
    let (_, from) = store.split_at(W::AT);
    Tries {
        left: reference::left(from.first_chunk().unwrap()),
        of: PhantomData,
    }
}

// A value is compared only where there is a try to be charged.
#[tactic(auto, unfolding(rules::specs::Reference::none_left))]
pub fn some_left<W: Secret>(store: &Store) -> Result<Tries<W>, Fault>
    ensures { (b : Bool) → MatchResult result (λ t. (none_left (the (refs_in store.now b) W.which) ≡ false) × (t.left ≡ (the (refs_in store.now b) W.which).left)) (λ f. (none_left (the (refs_in store.now b) W.which) ≡ true) × (f ≡ Blocked)) }
{
    let tries = left::<W>(store);
    if tries.left == 0 {
        Err(Fault::Blocked)
    } else {
        Ok(tries)
    }
}

pub fn charge<W: Secret>(store: &mut Store, tries: Tries<W>) -> Tries<W>
    requires { (b : Bool) → tries.left ≡ (the (refs_in store.old b) W.which).left }
    ensures { ((b : Bool) → store.new ≡ refs_onto store.old (stepped (refs_in store.old b) (charge W.which))) × (result.left ≡ tries.left - 1) }
{
    let (_, from) = store.split_at_mut(W::AT);
    Tries {
        left: reference::charge(from.first_chunk_mut().unwrap(), tries.left),
        of: PhantomData,
    }
}

pub fn restore<W: Secret>(store: &mut Store)
    ensures { (b : Bool) → store.new ≡ refs_onto store.old (stepped (refs_in store.old b) (restore W.which)) }
{
    let (_, from) = store.split_at_mut(W::AT);
    reference::restore(from.first_chunk_mut().unwrap());
}
