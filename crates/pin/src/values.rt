// Values: the value of a reference in a store, compared and replaced (01, "PIN form", "What the host lends").
// Each function lends the ten bytes of its reference, and no other byte of the store is written.
ghost use Rattle.std.specs.Prelude.{◌≡◌, Bool};
ghost use Rattle.rules.specs.Reference.{matches};
ghost use Rattle.rules.specs.Command.{new_value};
ghost use Rattle.rules.specs.Pin.{the, stepped, refs_in, refs_onto};

use super::secret::Secret;
use rules::Store;

pub fn equals<W: Secret>(store: &Store, value: &[u8; 8]) -> bool
    ensures { (b : Bool) → result ≡ matches (the (refs_in store.now b) W.which) value.now }
{
    let (_, from) = store.split_at(W::AT);
    reference::equals(from.first_chunk().unwrap(), value)
}

pub fn renew<W: Secret>(store: &mut Store, value: &[u8; 8])
    ensures { (b : Bool) → store.new ≡ refs_onto store.old (stepped (refs_in store.old b) (new_value W.which value.now)) }
{
    let (_, from) = store.split_at_mut(W::AT);
    reference::renew(from.first_chunk_mut().unwrap(), value);
}
