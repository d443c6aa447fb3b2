// The result of a job, the last of the card's three calls: whether the host may make it, and what is told of it (01, "GENERAL AUTHENTICATE"): 6F00 where
// the host reports it as failed, the challenge as 7C{81 challenge}, and any other result as 7C{82 result}.

#![tactic(auto)]

ghost use Rattle.std.specs.Prelude.{◌≡◌, Some, true, false, List, ◌++◌, ℕ, ◌≤◌, length, take};
ghost use Rattle.rules.specs.Ber.{tlv};
ghost use Rattle.rules.specs.Session.{state};
ghost use Rattle.rules.specs.Held.{send};
ghost use Rattle.rules.specs.Keys.{result_ok, challenged, finished};
ghost use Rattle.rules.specs.Calls.{outcome, delivered, finishes, call};
ghost use Rattle.saying.specs.Replies.{sent_reply};

use rules::{Answer, Fault, Job, Reply, Session, Work};
use saying::Sent;

// ---- a template that goes out

// The two heads of 7C{tag value} for a value of n bytes.
fn heads(dst: &mut [u8; 8], tag: u8, n: usize) -> usize
    requires { n ≤ 256 }
    ensures few { result ≤ 8 }
    ensures heads { (v : List ℕ) → length v ≡ n → take result dst.new ++ v ≡ tlv 0x7C (tlv tag v) }
{
    let inner = 1 + ber::length_bytes(n) + n;
    let at = heads::write_head(dst, 0, 0x7C, inner);
    heads::write_head(dst, at, tag, n)
}

// It is not given the session, and promises for every session.
fn give(work: &mut Work, resp: &mut [u8], le: usize, tag: u8, v: &[u8]) -> Sent
    requires resp { 258 ≤ length resp.old }
    requires le { le ≤ 256 }
    requires short { length v.now ≤ 256 }
    ensures { (s : Session) (m : List ℕ) → outcome (sent_reply s result) m work.new resp.new ≡ (delivered resp.old (send (state m work.old s) le (tlv 0x7C (tlv tag v.now)))).outcome }
{
    let mut head = [0; 8];
    let n = heads(&mut head, tag, v.len());
    sending::send(work, resp, le, &head[..n], v)
}

// ---- results

// The 16 result bytes are the challenge and the expected reply.
fn challenged(s: Session, work: &mut Work, resp: &mut [u8], le: usize, res: &[u8]) -> Reply
    requires resp { 258 ≤ length resp.old }
    requires le { le ≤ 256 }
    requires sixteen { length res.now ≡ 16 }
    ensures { (m : List ℕ) → outcome result m work.new resp.new ≡ (delivered resp.old (challenged (state m work.old s) le res.now)).outcome }
{
    let t = session::with_challenge(s, Some(numbers::be64(res, 8)));
    let sent = give(work, resp, le, 0x81, parts::part(res, 0, 8));
    saying::told(t, sent)
}

// The open job is closed, whatever its result. Keys are bytes: the reason stands at `Session` of rules.
fn finish(s: Session, work: &mut Work, resp: &mut [u8], job: Job, failed: bool, res: &[u8]) -> Reply
    requires resp { 258 ≤ length resp.old }
    requires le { job.le ≤ 256 }
    requires fits { failed ≡ false → result_ok job.key job.alg res.now ≡ true }
    ensures { (m : List ℕ) → outcome result m work.new resp.new ≡ (delivered resp.old (finished (state m work.old s) (Some job) failed res.now)).outcome }
{
    let t = session::with_job(s, None);
    if failed {
        return saying::end(t, resp, Err(Fault::JobFailed));
    }
    if job.key == 0x9B {
        return challenged(t, work, resp, job.le, res);
    }
    let sent = give(work, resp, job.le, 0x82, res);
    saying::told(t, sent)
}

// ---- the call

// The result of the open job, or that it failed; `failed` stands beside the bytes, since the promise holds for a failed job with any bytes (`finishes`).
pub fn job_result(
    session: Session,
    store: &[u8],
    work: &mut [u8],
    resp: &mut [u8],
    failed: bool,
    res: &[u8],
) -> Reply
    ensures { outcome result store.now work.new resp.new ≡ (call (state store.now work.old session) (finishes resp.old failed res.now)).outcome }
{
    match permit::job_result(
        wellformed::well_formed(store),
        session,
        resp.len(),
        work.len(),
        failed,
        res.len(),
    ) {
        Err(refusal) => Reply {
            answer: Answer::Refused(refusal),
            session,
        },
        Ok(()) => finish(
            session,
            work.as_mut_array().unwrap(),
            resp,
            session.job.unwrap(),
            failed,
            res,
        ),
    }
}
