// Power-on, the first of the card's three calls (01, "Power-on"): it clears the session and zeroes the work area, or is refused and changes no byte.

#![tactic(auto)]

ghost use Rattle.std.specs.Prelude.{◌≡◌, []};
ghost use Rattle.rules.specs.declared.Session.{Session};
ghost use Rattle.rules.specs.Session.{state};
ghost use Rattle.rules.specs.Calls.{outcome, powers, call};

use rules::{Answer, Reply};

#[tactic(auto, unfolding(rules::specs::Calls::call, rules::specs::Calls::decided, rules::specs::Calls::granted, rules::specs::Calls::powered_on, rules::specs::Calls::denied, rules::specs::Calls::lent, rules::specs::Calls::kept_session, rules::specs::Bytes::splice))]
pub fn power_on(store: &[u8], work: &mut [u8], contactless: bool) -> Reply
    ensures { (ss : Session) → outcome result store.now work.new [] ≡ (call (state store.now work.old ss) (powers contactless)).outcome }
{
    let session = session::cleared(contactless);
    match permit::power_on(wellformed::well_formed(store), work.len()) {
        Err(refusal) => Reply {
            answer: Answer::Refused(refusal),
            session,
        },
        Ok(()) => {
            octets::zero(work, 0, 13321);
            Reply {
                answer: Answer::PoweredOn,
                session,
            }
        }
    }
}
