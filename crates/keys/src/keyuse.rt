// Whether a key may be used now: the rules for each piece of GENERAL AUTHENTICATE (01, under this name).
ghost use Rattle.std.specs.Prelude.{◌≡◌, List, ℕ, ◌≤◌, OnOk};
ghost use Rattle.rules.specs.Fault.{worded, passes};
ghost use Rattle.rules.specs.Session.{state};
ghost use Rattle.rules.specs.Keys.{key_fits, asks_pin, auth_each};

use rules::{Fault, Header, Session, Store};

// P1 is the key's algorithm (00 for 9B), and the key is there.
#[tactic(auto, unfolding(rules::specs::Keys::key_fits, rules::specs::Bytes::iff))]
fn key_fits(store: &Store, h: Header) -> bool
    ensures { result ≡ key_fits store.now h }
{
    if h.p2 == 0x9B {
        return h.p1 == 0x00;
    }
    let alg = store::algorithm(store, h.p2);
    alg != 0x00 && h.p1 == alg
}

#[tactic(auto, unfolding(rules::specs::Keys::asks_pin))]
fn asks_pin(key: u8) -> bool
    ensures { result ≡ asks_pin key }
{
    matches!(key, 0x9A | 0x9C | 0x9D)
}

// Contactless, only 9E is used.
#[tactic(auto, unfolding(rules::specs::Keys::auth_each, rules::specs::Bytes::iff))]
pub fn each(s: Session, store: &Store, h: Header, n: usize) -> Result<(), Fault>
    ensures each { (w : List ℕ) → worded result ≡ passes (auth_each (state store.now w s) h n) }
    ensures room { OnOk result (n ≤ 266) }
{
    if h.p2 < 0x9A || 0x9E < h.p2 {
        return Err(Fault::WrongParameters);
    }
    if !key_fits(store, h) {
        return Err(Fault::WrongParameters);
    }
    if s.contactless && h.p2 != 0x9E {
        return Err(Fault::NotAllowed);
    }
    if asks_pin(h.p2) && !s.pin {
        return Err(Fault::NotAllowed);
    }
    if n > 266 {
        return Err(Fault::WrongData);
    }
    Ok(())
}
