// VERIFY, CHANGE REFERENCE DATA and RESET RETRY COUNTER (01, under these names). Here they are whole commands: which rule judges, what is dropped,
// and the status word that goes out. The rules are in verifying, changing and resetting; below them a value compared (attempt), the
// steps on the store (tries, values) and which of its references they are made on (secret).

#![tactic(auto)]

mod attempt;
mod changing;
mod resetting;
mod secret;
mod tries;
mod values;
mod verifying;

ghost use Rattle.std.specs.Prelude.{◌≡◌, None, List, ℕ, ◌≤◌, length};
ghost use Rattle.rules.specs.declared.Answer.TheVariants.{Response};
ghost use Rattle.rules.specs.Bytes.{splice, zeroed, word};
ghost use Rattle.rules.specs.Fault.{status_of};
ghost use Rattle.rules.specs.Session.{state, with_pin, holding, held_length};
ghost use Rattle.rules.specs.Held.{dropped};
ghost use Rattle.rules.specs.Pin.{refs_in, judgement, judged_on, refs, on_refs};
ghost use Rattle.rules.specs.Calls.{outcome, reply, delivered};
ghost use Rattle.pin.specs.Rule.{pin_rule};

use rules::{Header, Judged, Reply, Session, Store, Work};

// INS is a byte: the reason stands at `Session` of rules.
#[tactic(auto, unfolding(crate::specs::Rule::pin_rule, rules::specs::Bytes::iff))]
fn judge(store: &mut Store, given: bool, h: Header, field: &[u8]) -> Judged
    ensures { judgement result store.new ≡ judged_on store.old given (pin_rule (refs_in store.old given) h field.now) }
{
    match h.ins {
        0x20 => verifying::verify(store, given, h, field),
        0x24 => changing::change(store, given, h, field),
        _ => resetting::reset(store, given, h, field),
    }
}

// What is held is dropped, and the word goes out.
fn judged(s: Session, work: &mut Work, resp: &mut [u8], j: Judged) -> Reply
    requires resp { 258 ≤ length resp.old }
    requires held { held_length s ≤ 13321 }
    ensures { (m : List ℕ) → outcome result m work.new resp.new ≡ outcome (reply (Response 2) (with_pin (holding s None None) j.given)) m (zeroed work.old (held_length s)) (splice resp.old 0 (word (status_of j.said))) }
{
    let t = Session {
        pin: j.given,
        ..held::drop_held(s, work)
    };
    saying::end(t, resp, j.said)
}

// The steps on the store come before any byte of the work area is zeroed.
pub fn command(
    s: Session,
    store: &mut Store,
    work: &mut Work,
    resp: &mut [u8],
    h: Header,
    field: &[u8],
) -> Reply
    requires resp { 258 ≤ length resp.old }
    requires held { held_length s ≤ 13321 }
    ensures { outcome result store.new work.new resp.new ≡ (delivered resp.old (on_refs (dropped (state store.old work.old s)) (pin_rule (refs (state store.old work.old s)) h field.now))).outcome }
{
    let j = judge(store, s.pin, h, field);
    judged(s, work, resp, j)
}
