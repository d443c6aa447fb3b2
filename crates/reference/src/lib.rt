// Reference: a PIN or a PUK in its ten bytes, lent of a store: what is read of them, and the steps made on them.
// 01, "What the host lends": limit, tries left, eight value bytes.

#![tactic(auto)]

ghost use Rattle.std.specs.Prelude.{◌≡◌, ◌-◌};
ghost use Rattle.rules.specs.Reference.{matches, charged, restored, renewed, reference_at, put_reference};

// ---- the ten bytes read

#[tactic(auto, unfolding(rules::specs::Reference::reference_at))]
pub fn left(ten: &[u8; 10]) -> u8
    ensures { result ≡ (reference_at ten.now 0).left }
{
    ten[1]
}

// As one number: no byte of the value ends the comparison before the others.
pub fn equals(ten: &[u8; 10], d: &[u8; 8]) -> bool
    ensures { result ≡ matches (reference_at ten.now 0) d.now }
{
    numbers::be64(ten, 2) == numbers::be64(d, 0)
}

// ---- steps, each of which writes its own bytes and no other

// 0 stays 0.
#[tactic(auto, unfolding(rules::specs::Reference::reference_at, rules::specs::Reference::put_reference, rules::specs::Reference::charged, rules::specs::Bytes::splice, rules::specs::Bytes::part))]
pub fn charge(ten: &mut [u8; 10], left: u8) -> u8
    requires { left ≡ (reference_at ten.old 0).left }
    ensures { (ten.new ≡ put_reference ten.old 0 (charged (reference_at ten.old 0))) × (result ≡ left - 1) }
{
    let fewer = left.saturating_sub(1);
    octets::put_byte(ten, 1, fewer);
    fewer
}

#[tactic(auto, unfolding(rules::specs::Reference::reference_at, rules::specs::Reference::put_reference, rules::specs::Reference::restored, rules::specs::Bytes::splice, rules::specs::Bytes::part))]
pub fn restore(ten: &mut [u8; 10])
    ensures { ten.new ≡ put_reference ten.old 0 (restored (reference_at ten.old 0)) }
{
    let limit = ten[0];
    octets::put_byte(ten, 1, limit);
}

#[tactic(auto, unfolding(rules::specs::Reference::reference_at, rules::specs::Reference::put_reference, rules::specs::Reference::renewed, rules::specs::Bytes::splice, rules::specs::Bytes::part))]
pub fn renew(ten: &mut [u8; 10], value: &[u8; 8])
    ensures { ten.new ≡ put_reference ten.old 0 (renewed (reference_at ten.old 0) value.now) }
{
    octets::put(ten, 2, value);
}
