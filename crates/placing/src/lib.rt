// Placing: the bytes that a line gives for a buffer.

#![tactic(auto)]

ghost use Rattle.std.specs.Prelude.{◌≡◌};
ghost use Rattle.placing.specs.Placing.{placed, place};

// The bytes that a line gives in hex from a place on, put into a buffer, if they fit.
#[tactic(auto, using(std::proofs::lemmas::Bool::Decides::nat_tests, crate::proofs::Laws::all_bytes), unfolding(crate::specs::Placing::place, rules::specs::Bytes::iff))]
pub fn place(buffer: &mut [u8], line: &[u8], at: usize, from: usize) -> bool
    ensures { placed result buffer.new ≡ place buffer.old line.now at from }
{
    let digits = lines::after(line, from);
    let n = digits.len() / 2;
    let room = buffer.len();
    let fits = line.len() <= 99000 && text::is_hex(digits) && n <= room && at <= room - n;
    if fits {
        text::read_hex(buffer, at, digits, n);
    }
    fits
}
