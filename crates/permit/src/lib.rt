// Which calls the host may not make (01, "Calls the host may not make"): the row of refusals, in its order.

#![tactic(auto)]

ghost use Rattle.std.specs.Prelude.{◌≡◌, Bool, true, false, List, ℕ, ◌≤◌, length, IsSome, OnOk};
ghost use Rattle.rules.specs.Store.{well_formed};
ghost use Rattle.rules.specs.Session.{state, possible};
ghost use Rattle.rules.specs.Keys.{result_ok, result_fits};
ghost use Rattle.rules.specs.Calls.{powers, sends, finishes, permit};
ghost use Rattle.permit.specs.Four.{first_four};

use rules::{Job, Refusal, Session};

// ---- whether bytes can be the result of a job

// 16 bytes for a challenge; 256 bytes (07), 1 to 72 (11) or 32 (9D with 11). Key and algorithm are passed side by side, as in the book's word.
#[tactic(auto, unfolding(rules::specs::Keys::result_ok, rules::specs::Bytes::iff))]
fn result_ok(key: u8, alg: u8, n: usize) -> bool
    ensures { (r : List ℕ) → length r ≡ n → result ≡ result_ok key alg r }
{
    match (key, alg) {
        (0x9B, _) => n == 16,
        (_, 0x07) => n == 256,
        (0x9D, _) => n == 32,
        _ => 1 <= n && n <= 72,
    }
}

#[tactic(auto, unfolding(rules::specs::Keys::result_fits))]
fn result_fits(j: Option<Job>, n: usize) -> bool
    ensures { (r : List ℕ) → length r ≡ n → result ≡ result_fits j r }
{
    j.is_some_and(|j| result_ok(j.key, j.alg, n))
}

// ---- the row of refusals

// Power-on can give 1 and 4 only.
#[tactic(auto, unfolding(rules::specs::Calls::permit, rules::specs::Calls::ill_session, rules::specs::Calls::short_response, rules::specs::Calls::interrupts, rules::specs::Calls::unasked, rules::specs::Calls::wrong_result, crate::specs::Four::first_four, rules::specs::Bytes::iff))]
pub fn power_on(formed: bool, area: usize) -> Result<(), Refusal>
    ensures permit { (s w : List ℕ) (ss : Session) (air : Bool) → formed ≡ well_formed s → length w ≡ area → result ≡ permit (state s w ss) (powers air) }
    ensures work { OnOk result (area ≡ 13321) }
{
    if !formed {
        return Err(Refusal::IllStore);
    }
    if area != 13321 {
        return Err(Refusal::WrongWork);
    }
    Ok(())
}

// Refusals 1 to 4, which a command and a job result share. What a call that is permitted may count on is said by each of the three: of its own
// arguments, and of lengths, since a host may lend a longer buffer.
#[tactic(auto, unfolding(crate::specs::Four::first_four, rules::specs::Bytes::iff))]
fn first_four(formed: bool, session: Session, resp: usize, work: usize) -> Result<(), Refusal>
    ensures permit { result ≡ first_four formed session resp work }
    ensures formed { OnOk result (formed ≡ true) }
    ensures session { OnOk result (possible session ≡ true) }
    ensures resp { OnOk result (258 ≤ resp) }
    ensures work { OnOk result (work ≡ 13321) }
{
    if !formed {
        return Err(Refusal::IllStore);
    }
    if !possible::possible(session) {
        return Err(Refusal::IllSession);
    }
    if resp < 258 {
        return Err(Refusal::ShortResponse);
    }
    if work != 13321 {
        return Err(Refusal::WrongWork);
    }
    Ok(())
}

#[tactic(auto, unfolding(rules::specs::Calls::permit, rules::specs::Calls::ill_session, rules::specs::Calls::short_response, rules::specs::Calls::interrupts, rules::specs::Calls::unasked, rules::specs::Calls::wrong_result, crate::specs::Four::first_four, rules::specs::Bytes::iff))]
pub fn command(formed: bool, session: Session, resp: usize, work: usize) -> Result<(), Refusal>
    ensures permit { (s w b c : List ℕ) → formed ≡ well_formed s → length w ≡ work → length b ≡ resp → result ≡ permit (state s w session) (sends b c) }
    ensures formed { OnOk result (formed ≡ true) }
    ensures session { OnOk result (possible session ≡ true) }
    ensures resp { OnOk result (258 ≤ resp) }
    ensures work { OnOk result (work ≡ 13321) }
{
    first_four(formed, session, resp, work)?;
    if session.job.is_some() {
        return Err(Refusal::JobOpen);
    }
    Ok(())
}

// A job reported as failed has no result.
#[tactic(auto, unfolding(rules::specs::Calls::permit, rules::specs::Calls::ill_session, rules::specs::Calls::short_response, rules::specs::Calls::interrupts, rules::specs::Calls::unasked, rules::specs::Calls::wrong_result, crate::specs::Four::first_four, rules::specs::Bytes::iff))]
pub fn job_result(
    formed: bool,
    session: Session,
    resp: usize,
    work: usize,
    failed: bool,
    res: usize,
) -> Result<(), Refusal>
    ensures permit { (s w b r : List ℕ) → formed ≡ well_formed s → length w ≡ work → length b ≡ resp → length r ≡ res → result ≡ permit (state s w session) (finishes b failed r) }
    ensures session { OnOk result (possible session ≡ true) }
    ensures resp { OnOk result (258 ≤ resp) }
    ensures work { OnOk result (work ≡ 13321) }
    ensures job { OnOk result (IsSome session.job) }
    ensures result { OnOk result (failed ≡ false → (r : List ℕ) → length r ≡ res → result_fits session.job r ≡ true) }
{
    first_four(formed, session, resp, work)?;
    if session.job.is_none() {
        return Err(Refusal::NoJob);
    }
    if !failed && !result_fits(session.job, res) {
        return Err(Refusal::WrongResult);
    }
    Ok(())
}
