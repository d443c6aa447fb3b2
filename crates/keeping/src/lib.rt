// Keeping: a line of any length, kept in a buffer that is not.

#![tactic(auto)]

ghost use Rattle.std.specs.Prelude.{◌≡◌, ◌&&◌, ◌≤◌, length};
ghost use Rattle.text.specs.Text.{is_digit};
ghost use Rattle.keeping.specs.Keeping.{kept, keep};

#[tactic(auto, using(std::proofs::lemmas::Bool::Decides::nat_tests), unfolding(text::specs::Text::is_hex))]
fn both_digits(a: u8, b: u8) -> bool
    ensures { result ≡ (is_digit a && is_digit b) }
{
    text::is_hex(&[a, b])
}

// The line whose first n bytes are kept in the buffer, with one byte more.
#[tactic(auto, using(std::proofs::lemmas::Bool::Decides::nat_tests), unfolding(crate::specs::Keeping::keep, rules::specs::Bytes::iff))]
pub fn keep(line: &mut [u8], n: usize, b: u8) -> usize
    requires { (n ≤ length line.old) × (1 ≤ length line.old) }
    ensures { kept result line.new ≡ keep line.old n b }
{
    if n < line.len() {
        octets::put_byte(line, n, b);
        n + 1
    } else if both_digits(b, line[n - 1]) {
        n - 1
    } else {
        octets::put_byte(line, 0, 0);
        n
    }
}
