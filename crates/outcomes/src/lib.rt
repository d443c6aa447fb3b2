// Outcomes: all that is seen of a call, as one line of text.
// Each writer is given the buffer and a place in it, and answers the place behind what it wrote: there is no heap.

#![tactic(auto)]

mod sums;

ghost use Rattle.std.specs.Prelude.{◌≡◌, ◌∷◌, ◌+◌, ◌*◌, ◌≤◌, ◌<◌, length};
ghost use Rattle.rules.specs.declared.Answer.TheVariants.{Response, JobOpened};
ghost use Rattle.rules.specs.Bytes.{splice};
ghost use Rattle.rules.specs.Calls.{refusal_number};
ghost use Rattle.printing.specs.Printing.{hex_of};
ghost use Rattle.outcomes.specs.Outcomes.{kind, session_text, sum_text, sums_text, outcome_line};

use rules::{Answer, Refusal, Reply, Session};

// A character, and bytes in hex behind it.
#[tactic(auto, using(octets::proofs::Laws::splice_cons, printing::proofs::Laws::hex))]
fn write_marked(out: &mut [u8], at: usize, mark: u8, s: &[u8]) -> usize
    requires { at + 1 + 2 * length s.now ≤ length out.old }
    ensures { (result ≡ at + length (mark ∷ hex_of s.now)) × (out.new ≡ splice out.old at (mark ∷ hex_of s.now)) }
{
    octets::put_byte(out, at, mark);
    printing::write_hex(out, at + 1, s)
}

// No `From`: it would have to stand in rules, with the type, for this one caller.
fn number(r: Refusal) -> u8
    ensures value { result ≡ refusal_number r }
    ensures small { result < 10 }
{
    match r {
        Refusal::IllStore => 1,
        Refusal::IllSession => 2,
        Refusal::ShortResponse => 3,
        Refusal::WrongWork => 4,
        Refusal::JobOpen => 5,
        Refusal::NoJob => 6,
        Refusal::WrongResult => 7,
    }
}

#[tactic(auto, using(octets::proofs::Laws::splice_cons), unfolding(crate::specs::Outcomes::kind))]
fn write_response(out: &mut [u8], resp: &[u8], len: usize) -> usize
    requires { 2 + 2 * length resp.now ≤ length out.old }
    ensures { (result ≡ length (kind (Response len) resp.now)) × (out.new ≡ splice out.old 0 (kind (Response len) resp.now)) }
{
    octets::put_byte(out, 0, b'R');
    write_marked(out, 1, b' ', lines::first(resp, len))
}

#[tactic(auto, using(octets::proofs::Laws::splice_cons, rules::proofs::Lists::buffers, printing::proofs::Laws::hex, std::proofs::lemmas::Grind::common_steps), unfolding(crate::specs::Outcomes::kind))]
fn write_job(out: &mut [u8], resp: &[u8], key: u8, alg: u8, len: usize) -> usize
    requires { 7 + 2 * length resp.now ≤ length out.old }
    ensures { (result ≡ length (kind (JobOpened key alg len) resp.now)) × (out.new ≡ splice out.old 0 (kind (JobOpened key alg len) resp.now)) }
{
    octets::put_byte(out, 0, b'J');
    let named = [key, alg];
    let next = write_marked(out, 1, b' ', &named);
    write_marked(out, next, b':', lines::first(resp, len))
}

#[tactic(auto, unfolding(crate::specs::Outcomes::kind))]
fn write_kind(out: &mut [u8], a: Answer, resp: &[u8]) -> usize
    requires { 7 + 2 * length resp.now ≤ length out.old }
    ensures { (result ≡ length (kind a resp.now)) × (out.new ≡ splice out.old 0 (kind a resp.now)) }
{
    match a {
        Answer::PoweredOn => {
            octets::put(out, 0, b"P -");
            3
        }
        Answer::Response { len } => write_response(out, resp, len),
        Answer::JobOpened { key, alg, len } => write_job(out, resp, key, alg, len),
        Answer::Refused(x) => {
            octets::put(out, 0, &[b'N', b' ', b'0' + number(x)]);
            3
        }
    }
}

#[tactic(auto, unfolding(crate::specs::Outcomes::session_text))]
fn write_session(out: &mut [u8], at: usize, s: Session) -> usize
    requires { at + 129 ≤ length out.old }
    ensures { (result ≡ at + length (session_text s)) × (out.new ≡ splice out.old at (session_text s)) }
{
    let mut bytes = [0u8; 64];
    packed::pack(&mut bytes, s);
    write_marked(out, at, b' ', &bytes)
}

#[tactic(auto, using(octets::proofs::Laws::splice_cons), unfolding(crate::specs::Outcomes::sum_text))]
fn write_sum(out: &mut [u8], at: usize, s: &[u8]) -> usize
    requires { at + 11 ≤ length out.old }
    ensures { (result ≡ at + length (sum_text s.now)) × (out.new ≡ splice out.old at (sum_text s.now)) }
{
    octets::put_byte(out, at, b' ');
    sums::write_decimal(out, at + 1, 10, sums::sum(s))
}

// The sums of store, work area and response buffer.
#[tactic(auto, using(crate::proofs::Laws::lengths, rules::proofs::Lists::buffers, std::proofs::lemmas::Grind::common_steps), unfolding(crate::specs::Outcomes::sums_text))]
fn write_sums(out: &mut [u8], at: usize, store: &[u8], work: &[u8], resp: &[u8]) -> usize
    requires { at + 33 ≤ length out.old }
    ensures { (result ≡ at + length (sums_text store.now work.now resp.now)) × (out.new ≡ splice out.old at (sums_text store.now work.now resp.now)) }
{
    let store_end = write_sum(out, at, store);
    let work_end = write_sum(out, store_end, work);
    write_sum(out, work_end, resp)
}

#[tactic(auto, using(crate::proofs::Laws::lengths, rules::proofs::Lists::buffers, std::proofs::lemmas::Grind::common_steps), unfolding(crate::specs::Outcomes::outcome_line))]
pub fn write(out: &mut [u8], r: Reply, store: &[u8], work: &[u8], resp: &[u8]) -> usize
    requires { 2 * length resp.now + 200 ≤ length out.old }
    ensures { (result ≡ length (outcome_line r store.now work.now resp.now)) × (out.new ≡ splice out.old 0 (outcome_line r store.now work.now resp.now)) }
{
    let kind_end = write_kind(out, r.answer, resp);
    let session_end = write_session(out, kind_end, r.session);
    let sums_end = write_sums(out, session_end, store, work, resp);
    octets::put_byte(out, sums_end, b'\n');
    sums_end + 1
}
