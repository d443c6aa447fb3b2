// The form of a PIN (01, "PIN form").

#![tactic(auto)]

ghost use Rattle.std.specs.Prelude.{◌≡◌};
ghost use Rattle.rules.specs.Bytes.{all};
ghost use Rattle.rules.specs.Reference.{digit, last_two, pin_form};

fn digits(d: &[u8]) -> bool
    ensures { result ≡ all digit d.now }
{
    d.iter().all(u8::is_ascii_digit)
}

// Each a digit or FF, and after FF only FF.
#[tactic(auto, unfolding(rules::specs::Reference::digit, rules::specs::Reference::last_two))]
fn last_two(a: u8, b: u8) -> bool
    ensures { result ≡ last_two a b }
{
    a.is_ascii_digit() && (b.is_ascii_digit() || b == 0xFF) || a == 0xFF && b == 0xFF
}

#[tactic(auto, unfolding(rules::specs::Reference::pin_form))]
pub fn pin_form(d: &[u8]) -> bool
    ensures { result ≡ pin_form d.now }
{
    d.len() == 8 && digits(&d[..6]) && last_two(d[6], d[7])
}
