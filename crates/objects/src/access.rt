// What may be read now (01, the last two columns of the table): a column is a `match`, as in table.
ghost use Rattle.std.specs.Prelude.{◌≡◌, get_or};
ghost use Rattle.rules.specs.declared.Access.TheVariants.{Never};
ghost use Rattle.rules.specs.Store.{contact_read, contactless_read};
ghost use Rattle.rules.specs.Session.{allows, readable};
ghost use Rattle.table.specs.Slots.{index_of};

use rules::{Access, Session};
use table::Slot;

fn contact_read(slot: Slot) -> Access
    ensures { result ≡ get_or contact_read (index_of slot) Never }
{
    match slot {
        Slot::Fingerprints => Access::WithPin,
        Slot::Face => Access::WithPin,
        Slot::Printed => Access::WithPin,
        Slot::Capability
        | Slot::Chuid
        | Slot::Certificate9A
        | Slot::Security
        | Slot::Certificate9E
        | Slot::Certificate9C
        | Slot::Certificate9D
        | Slot::KeyHistory
        | Slot::Discovery => Access::Always,
    }
}

fn contactless_read(slot: Slot) -> Access
    ensures { result ≡ get_or contactless_read (index_of slot) Never }
{
    match slot {
        Slot::Chuid | Slot::Certificate9E | Slot::Discovery => Access::Always,
        Slot::Capability
        | Slot::Certificate9A
        | Slot::Fingerprints
        | Slot::Security
        | Slot::Face
        | Slot::Certificate9C
        | Slot::Certificate9D
        | Slot::Printed
        | Slot::KeyHistory => Access::Never,
    }
}

fn allows(s: Session, access: Access) -> bool
    ensures { result ≡ allows s access }
{
    match access {
        Access::Always => true,
        Access::WithPin => s.pin,
        Access::Never => false,
    }
}

#[tactic(auto, unfolding(rules::specs::Session::readable, rules::specs::Bytes::iff))]
pub fn readable(s: Session, slot: Slot) -> bool
    ensures { result ≡ readable s (index_of slot) }
{
    if s.contactless {
        allows(s, contactless_read(slot))
    } else {
        allows(s, contact_read(slot))
    }
}
