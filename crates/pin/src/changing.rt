// CHANGE REFERENCE DATA (01, under this name): the old value and the new one, in one field. Each function mirrors its rule line by line, and makes
// the steps of its rule in their order: charge, compare, new value, restore.
ghost use Rattle.std.specs.Prelude.{◌≡◌, Bool};
ghost use Rattle.rules.specs.Pin.{change_of, change, refs_in, judgement, judged_on};
ghost use Rattle.pin.specs.Attempt.{form_of, judged_of};

use super::attempt::Miss;
use super::secret::{Pin, Puk, Secret};
use super::{attempt, tries, values};
use rules::{Fault, Header, Judged, Store};

fn change_of<W: Secret>(store: &mut Store, field: &[u8]) -> Result<(), Miss>
    ensures { (b hit miss : Bool) → judgement (judged_of result b hit miss) store.new ≡ judged_on store.old b (change_of (refs_in store.old b) W.which (form_of W.which) hit miss field.now) }
{
    let tries = tries::some_left::<W>(store)?;
    let (old, new) = attempt::two_values::<W, W>(field).ok_or(Fault::WrongData)?;
    attempt::compare(store, tries, old)?;
    values::renew::<W>(store, new);
    tries::restore::<W>(store);
    Ok(())
}

// P2 80: the PIN. P2 81: the PUK, and the PIN status stays, equal or not.
#[tactic(auto, using(crate::proofs::Steps::quiet_on), unfolding(rules::specs::Pin::change, rules::specs::Bytes::iff, rules::specs::Pin::refs_in))]
pub fn change(store: &mut Store, given: bool, h: Header, field: &[u8]) -> Judged
    ensures { judgement result store.new ≡ judged_on store.old given (change (refs_in store.old given) h field.now) }
{
    match (h.p1, h.p2) {
        (0x00, 0x80) => attempt::judged(change_of::<Pin>(store, field), given, true, false),
        (0x00, 0x81) => attempt::judged(change_of::<Puk>(store, field), given, given, given),
        (0x00, _) => Judged {
            said: Err(Fault::NotSupported),
            given,
        },
        _ => Judged {
            said: Err(Fault::WrongParameters),
            given,
        },
    }
}
