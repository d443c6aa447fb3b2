// VERIFY (01, "VERIFY"). Each function mirrors its rule line by line.
ghost use Rattle.std.specs.Prelude.{◌≡◌, Bool, true, false, List, ℕ, length};
ghost use Rattle.rules.specs.Pin.{verify_given, verify_asked, verify_ended, verify, refs_in, judgement, judged_on};
ghost use Rattle.pin.specs.Attempt.{judged_of};

use super::attempt::Miss;
use super::secret::{Pin, Secret};
use super::{attempt, tries};
use rules::{Fault, Header, Judged, Store};

// P1 FF: the PIN status ends, and no store is read.
#[tactic(auto, using(crate::proofs::Steps::quiet_on), unfolding(rules::specs::Pin::verify_ended, rules::specs::Bytes::iff, rules::specs::Pin::refs_in))]
fn verify_ended(given: bool, field: &[u8]) -> Judged
    ensures { (s : List ℕ) → length s ≡ 33400 → judgement result s ≡ judged_on s given (verify_ended (refs_in s given) field.now) }
{
    if field.is_empty() {
        Judged {
            said: Ok(()),
            given: false,
        }
    } else {
        Judged {
            said: Err(Fault::WrongData),
            given,
        }
    }
}

#[tactic(auto, using(crate::proofs::Steps::quiet_on), unfolding(rules::specs::Pin::verify_asked, rules::specs::Bytes::iff, rules::specs::Pin::refs_in))]
fn verify_asked(store: &Store, given: bool) -> Judged
    ensures { judgement result store.now ≡ judged_on store.now given (verify_asked (refs_in store.now given)) }
{
    if given {
        Judged {
            said: Ok(()),
            given,
        }
    } else {
        let tries = tries::left::<Pin>(store);
        Judged {
            said: Err(Fault::NotEqual { left: tries.left }),
            given,
        }
    }
}

fn verify_given(store: &mut Store, field: &[u8]) -> Result<(), Miss>
    ensures { (b : Bool) → judgement (judged_of result b true false) store.new ≡ judged_on store.old b (verify_given (refs_in store.old b) field.now) }
{
    let tries = tries::some_left::<Pin>(store)?;
    let value = Pin::formed(field).ok_or(Fault::WrongData)?;
    attempt::compare(store, tries, value)?;
    tries::restore::<Pin>(store);
    Ok(())
}

#[tactic(auto, using(crate::proofs::Steps::quiet_on), unfolding(rules::specs::Pin::verify, rules::specs::Bytes::iff, rules::specs::Pin::refs_in))]
pub fn verify(store: &mut Store, given: bool, h: Header, field: &[u8]) -> Judged
    ensures { judgement result store.new ≡ judged_on store.old given (verify (refs_in store.old given) h field.now) }
{
    match (h.p1, h.p2) {
        (0xFF, 0x80) => verify_ended(given, field),
        (0x00, 0x80) if field.is_empty() => verify_asked(store, given),
        (0x00, 0x80) => attempt::judged(verify_given(store, field), given, true, false),
        (0x00 | 0xFF, _) => Judged {
            said: Err(Fault::NoReference),
            given,
        },
        _ => Judged {
            said: Err(Fault::WrongParameters),
            given,
        },
    }
}
