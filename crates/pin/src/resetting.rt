// RESET RETRY COUNTER (01, under this name): the PUK and a new PIN, in one field. Each function mirrors its rule line by line, and makes the
// steps of its rule in their order: charge, compare, new value, restore.
ghost use Rattle.std.specs.Prelude.{◌≡◌, Bool, false};
ghost use Rattle.rules.specs.Pin.{reset_given, reset, refs_in, judgement, judged_on};
ghost use Rattle.pin.specs.Attempt.{judged_of};

use super::attempt::Miss;
use super::secret::{Pin, Puk};
use super::{attempt, tries, values};
use rules::{Fault, Header, Judged, Store};

// The PUK and a new PIN.
fn reset_given(store: &mut Store, field: &[u8]) -> Result<(), Miss>
    ensures { (b : Bool) → judgement (judged_of result b b false) store.new ≡ judged_on store.old b (reset_given (refs_in store.old b) field.now) }
{
    let tries = tries::some_left::<Puk>(store)?;
    let (puk, new) = attempt::two_values::<Puk, Pin>(field).ok_or(Fault::WrongData)?;
    attempt::compare(store, tries, puk)?;
    values::renew::<Pin>(store, new);
    tries::restore::<Pin>(store);
    tries::restore::<Puk>(store);
    Ok(())
}

// The PIN status is not restored.
#[tactic(auto, using(crate::proofs::Steps::quiet_on), unfolding(rules::specs::Pin::reset, rules::specs::Bytes::iff, rules::specs::Pin::refs_in))]
pub fn reset(store: &mut Store, given: bool, h: Header, field: &[u8]) -> Judged
    ensures { judgement result store.new ≡ judged_on store.old given (reset (refs_in store.old given) h field.now) }
{
    match (h.p1, h.p2) {
        (0x00, 0x80) => attempt::judged(reset_given(store, field), given, given, false),
        (0x00, _) => Judged {
            said: Err(Fault::NotSupported),
            given,
        },
        _ => Judged {
            said: Err(Fault::WrongParameters),
            given,
        },
    }
}
