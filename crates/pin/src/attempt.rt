// Attempt: a value given, compared with the PIN or the PUK, as VERIFY, CHANGE REFERENCE DATA and RESET RETRY COUNTER do it. First the tests
// (some tries are left, and then the form), then a try is charged, then the value is compared: the try comes back only after it was found equal.
ghost use Rattle.std.specs.Prelude.{◌≡◌, Bool, true, false, ◌-◌, MatchOption, MatchResult, take, drop};
ghost use Rattle.rules.specs.Reference.{matches};
ghost use Rattle.rules.specs.Command.{charge};
ghost use Rattle.rules.specs.Pin.{the, stepped, refs_in, refs_onto};
ghost use Rattle.pin.specs.declared.attempt.Miss.TheVariants.{Refused, Unequal};
ghost use Rattle.pin.specs.Attempt.{form_of, two_values, judged_of};

use super::secret::Secret;
use super::tries::Tries;
use super::{tries, values};
use rules::{Fault, Judged, Store};

// Why a value is not taken: nothing was compared, or it was found unequal, and so many tries are left.
#[derive(Clone, Copy)]
pub enum Miss {
    Refused(Fault),
    Unequal { left: u8 },
}

impl From<Fault> for Miss {
    ghost from_gives = { λ f m. m ≡ Refused f };

    fn from(fault: Fault) -> Miss {
        Miss::Refused(fault)
    }
}

// The old value and the new one (RESET RETRY COUNTER: the PUK and the new PIN): 16 bytes, and either half has its form.
#[tactic(auto, unfolding(crate::specs::Attempt::two_values))]
pub fn two_values<W: Secret, V: Secret>(field: &[u8]) -> Option<(&[u8; 8], &[u8; 8])>
    ensures { MatchOption result (two_values (form_of W.which) (form_of V.which) field.now ≡ false) (λ p. (two_values (form_of W.which) (form_of V.which) field.now ≡ true) × (p.0.now ≡ take 8 field.now) × (p.1.now ≡ drop 8 field.now)) }
{
    if field.len() != 16 {
        return None;
    }
    Some((W::formed(&field[..8])?, V::formed(&field[8..])?))
}

// A try is charged, and the value is compared.
pub fn compare<W: Secret>(store: &mut Store, tries: Tries<W>, value: &[u8; 8]) -> Result<(), Miss>
    requires { (b : Bool) → tries.left ≡ (the (refs_in store.old b) W.which).left }
    ensures { (b : Bool) → (store.new ≡ refs_onto store.old (stepped (refs_in store.old b) (charge W.which))) × MatchResult result (λ u. matches (the (refs_in store.old b) W.which) value.now ≡ true) (λ m. (matches (the (refs_in store.old b) W.which) value.now ≡ false) × (m ≡ Unequal ((the (refs_in store.old b) W.which).left - 1))) }
{
    let fewer = tries::charge(store, tries);
    if values::equals::<W>(store, value) {
        Ok(())
    } else {
        Err(Miss::Unequal { left: fewer.left })
    }
}

// What a rule says, and the PIN status: `hit` after a value was found equal, `miss` after it was found unequal, and else as it was.
pub fn judged(tried: Result<(), Miss>, given: bool, hit: bool, miss: bool) -> Judged
    ensures { result ≡ judged_of tried given hit miss }
{
    match tried {
        Ok(()) => Judged {
            said: Ok(()),
            given: hit,
        },
        Err(Miss::Refused(fault)) => Judged {
            said: Err(fault),
            given,
        },
        Err(Miss::Unequal { left }) => Judged {
            said: Err(Fault::NotEqual { left }),
            given: miss,
        },
    }
}
