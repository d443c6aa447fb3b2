// Issued: the fixed card of 01's "Checked examples", as it is before the first command.

#![tactic(auto)]

ghost use Rattle.std.specs.Prelude.{◌≡◌};
ghost use Rattle.rules.specs.Claims.Starred.{fixed};

use rules::Store;

// PIN 123456, PUK 12345678, limits 3, all tries left, no keys.
const HEAD: [u8; 32] = [
    0x4F, 0x50, 0x43, 0x00, 0x01, 0x00, 0x00, 0x00, 0x03, 0x03, 0x31, 0x32, 0x33, 0x34, 0x35, 0x36,
    0xFF, 0xFF, 0x03, 0x03, 0x31, 0x32, 0x33, 0x34, 0x35, 0x36, 0x37, 0x38, 0x00, 0x00, 0x00, 0x00,
];

pub fn fixed_card(store: &mut Store)
    ensures { store.new ≡ fixed }
{
    let head = HEAD;
    octets::put(store, 0, &head);
    octets::zero(store, 32, 33368);
}
