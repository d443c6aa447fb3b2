// The forms of GENERAL AUTHENTICATE's template 7C: what the administrator's says, and where the data for a key stand
// (01, "GENERAL AUTHENTICATE"). A value read either is there or ends the command with 6A80.
ghost use Rattle.std.specs.Prelude.{◌≡◌, ◌+◌, ◌≤◌, ℕ, List, ⊤, length, IfSome};
ghost use Rattle.rules.specs.Ber.{last_at};
ghost use Rattle.reader.specs.Read.{behind_first};
ghost use Rattle.rules.specs.Keys.{admin_form, data_tag, data_ok, data_in, key_form};
ghost use Rattle.keys.specs.Forms.{ReplyInside};

use rules::{Admin, Place};

// 81 empty, or 82 and eight bytes, and no more.
#[tactic(auto, unfolding(rules::specs::Keys::admin_form, rules::specs::Keys::challenge_in, rules::specs::Keys::reply_in, rules::specs::Bytes::iff))]
pub fn admin_form(t: &[u8]) -> Option<Admin>
    ensures form { result ≡ admin_form t.now }
    ensures inside { IfSome result (ReplyInside t.now) }
{
    if let Some(0x81) = t.first() {
        let value = reader::only(t, 0x81)?;
        return (value.len == 0).then_some(Admin::GiveChallenge);
    }
    let value = reader::only(t, 0x82)?;
    (value.len == 8).then_some(Admin::Reply { from: value.from })
}

// 9D with 11 takes a point (85) instead of data (81).
#[tactic(auto, unfolding(rules::specs::Keys::data_tag, rules::specs::Bytes::iff))]
fn data_tag(key: u8, alg: u8) -> u8
    ensures { result ≡ data_tag key alg }
{
    match (key, alg) {
        (0x9D, 0x11) => 0x85,
        _ => 0x81,
    }
}

// 256 data bytes for 07, 32 for 11; for 9D with 11 they are 04 and 64 bytes.
#[tactic(auto, unfolding(rules::specs::Keys::data_ok, rules::specs::Bytes::iff))]
fn data_ok(key: u8, alg: u8, t: &[u8], v: Place) -> bool
    requires { v.from + v.len ≤ length t.now }
    ensures { result ≡ data_ok key alg t.now v.from v.len }
{
    match (key, alg) {
        (_, 0x07) => v.len == 256,
        (0x9D, _) => v.len == 65 && t[v.from] == 0x04,
        _ => v.len == 32,
    }
}

// 82 empty, then the data, which end the template.
#[tactic(auto, unfolding(rules::specs::Keys::key_form, rules::specs::Keys::data_after, reader::specs::Read::behind_first, rules::specs::Bytes::iff))]
pub fn key_form(key: u8, alg: u8, t: &[u8]) -> Option<Place>
    ensures form { result ≡ key_form key alg t.now }
    ensures inside { IfSome result (λ v. v.from + v.len ≤ length t.now) }
    ensures short { IfSome result (λ v. v.len ≤ 256) }
{
    let empty = reader::first(t, 0x82)?;
    if empty.len != 0 {
        return None;
    }
    data_form(key, alg, t)
}

// The data behind 82.
#[tactic(auto, unfolding(rules::specs::Keys::data_in, rules::specs::Keys::data_ok, rules::specs::Bytes::iff))]
fn data_form(key: u8, alg: u8, t: &[u8]) -> Option<Place>
    ensures form { result ≡ data_in key alg t.now (last_at t.now (behind_first t.now 0x82) (data_tag key alg)) }
    ensures inside { IfSome result (λ v. v.from + v.len ≤ length t.now) }
    ensures short { IfSome result (λ v. v.len ≤ 256) }
{
    let data = reader::last(t, 0x82, data_tag(key, alg))?;
    if !data_ok(key, alg, t, data) {
        return None;
    }
    Some(data)
}
