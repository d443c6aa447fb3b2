// SELECT and GET RESPONSE (01, under these names). Each command's function mirrors its rule line by line.
ghost use Rattle.std.specs.Prelude.{◌≡◌, true, ◌||◌, List, ℕ, ◌≤◌, take, length};
ghost use Rattle.rules.specs.Bytes.{same_bytes};
ghost use Rattle.rules.specs.Session.{state, held_length, rest_ok};
ghost use Rattle.rules.specs.Objects.{aid, select, get_response};
ghost use Rattle.rules.specs.Calls.{outcome, delivered};

use rules::{Fault, Header, Reply, Session, Work};

const AID: [u8; 11] = [
    0xA0, 0x00, 0x00, 0x03, 0x08, 0x00, 0x00, 0x10, 0x00, 0x01, 0x00,
];

// 61{4F full AID, 79{4F A000000308}}
const TEMPLATE: [u8; 24] = [
    0x61, 0x16, 0x4F, 0x0B, 0xA0, 0x00, 0x00, 0x03, 0x08, 0x00, 0x00, 0x10, 0x00, 0x01, 0x00, 0x79,
    0x07, 0x4F, 0x05, 0xA0, 0x00, 0x00, 0x03, 0x08,
];

// ---- SELECT

// The whole identifier or its first nine bytes.
fn ours(d: &[u8]) -> bool
    ensures { result ≡ (same_bytes d.now aid || same_bytes d.now (take 9 aid)) }
{
    let whole = AID;
    parts::same(d, &whole) || parts::same(d, &whole[..9])
}

#[tactic(auto, unfolding(rules::specs::Objects::select, rules::specs::Objects::template, rules::specs::Bytes::iff))]
pub fn select(s: Session, work: &mut Work, resp: &mut [u8], h: Header, field: &[u8]) -> Reply
    requires resp { 258 ≤ length resp.old }
    requires le { h.le ≤ 256 }
    ensures { (m : List ℕ) → outcome result m work.new resp.new ≡ (delivered resp.old (select (state m work.old s) h field.now)).outcome }
{
    if h.p1 != 0x04 || h.p2 != 0x00 {
        return saying::end(s, resp, Err(Fault::WrongParameters));
    }
    if !ours(field) {
        return saying::end(s, resp, Err(Fault::NotFound));
    }
    let template = TEMPLATE;
    let sent = sending::send(work, resp, h.le, &template, &[]);
    saying::told(s, sent)
}

// ---- GET RESPONSE

// Any GET RESPONSE that hands nothing out drops the rest.
#[tactic(auto, unfolding(rules::specs::Objects::get_response, rules::specs::Objects::get_rest, rules::specs::Bytes::iff))]
pub fn get_response(s: Session, work: &mut Work, resp: &mut [u8], h: Header, field: &[u8]) -> Reply
    requires resp { 258 ≤ length resp.old }
    requires le { h.le ≤ 256 }
    requires rest { rest_ok s.rest ≡ true }
    requires held { held_length s ≤ 13321 }
    ensures { (m : List ℕ) → outcome result m work.new resp.new ≡ (delivered resp.old (get_response (state m work.old s) h field.now)).outcome }
{
    if h.p1 != 0x00 || h.p2 != 0x00 {
        return saying::drop_end(s, work, resp, Err(Fault::WrongParameters));
    }
    if !field.is_empty() {
        return saying::drop_end(s, work, resp, Err(Fault::WrongLength));
    }
    match s.rest {
        None => saying::drop_end(s, work, resp, Err(Fault::NothingHeld)),
        Some(r) => sending::fetch(s, work, resp, h.le, r),
    }
}
