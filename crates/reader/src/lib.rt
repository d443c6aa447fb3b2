// The reader that is carried over the data objects of a command data field (01, "The data objects in a command"): the field and a position.
// A value read is given by its place in the field itself. A reader that failed stays failed, so a row of reads is a straight line.
// Callers use the functions on a plain slice, below.

#![tactic(auto)]

ghost use Rattle.std.specs.Prelude.{◌≡◌, ◌+◌, ◌≤◌, length, IfSome};
ghost use Rattle.rules.specs.Ber.{object_at, ending, last_at};
ghost use Rattle.reader.specs.Read.{after, behind_first};

use rules::Place;

#[derive(Clone, Copy)]
struct Reader<'a> {
    field: &'a [u8],
    at: usize,
}

impl<'a> Reader<'a> {
    fn new(field: &'a [u8]) -> Reader<'a>
        ensures field { result.field ≡ field.entry }
        ensures start { result.at ≡ 0 }
    {
        Reader { field, at: 0 }
    }

    // The object that stands here. The reader then stands behind it, or at the end where it is missing.
    fn read(&mut self, tag: u8) -> Option<Place>
        ensures object { result ≡ object_at self.old.field.now self.old.at tag }
        ensures inside { IfSome result (λ v. v.from + v.len ≤ length self.old.field.now) }
        ensures behind { self.new.at ≡ after self.old.field.now result }
        ensures field { self.new.field ≡ self.old.field }
    {
        let found = ber::read_object(self.field, self.at, tag);
        self.at = match found {
            Some(v) => v.from + v.len,
            None => self.field.len(),
        };
        found
    }
}

// ---- over a slice

// "And no more": the object ends where the field ends.
#[tactic(auto, unfolding(rules::specs::Ber::ending, rules::specs::Bytes::iff))]
fn ends(s: &[u8], f: Option<Place>) -> Option<Place>
    requires { IfSome f (λ v. v.from + v.len ≤ length s.now) }
    ensures ending { result ≡ ending s.now f }
    ensures inside { IfSome result (λ v. v.from + v.len ≡ length s.now) }
{
    match f {
        Some(v) if v.from + v.len == s.len() => f,
        _ => None,
    }
}

// The object at the start of a field.
pub fn first(field: &[u8], tag: u8) -> Option<Place>
    ensures read { result ≡ object_at field.now 0 tag }
    ensures inside { IfSome result (λ v. v.from + v.len ≤ length field.now) }
{
    Reader::new(field).read(tag)
}

// The object that is all of a field.
#[tactic(auto, unfolding(rules::specs::Ber::last_at))]
pub fn only(field: &[u8], tag: u8) -> Option<Place>
    ensures read { result ≡ last_at field.now 0 tag }
    ensures inside { IfSome result (λ v. v.from + v.len ≡ length field.now) }
{
    ends(field, first(field, tag))
}

// The object that stands behind the first one, and ends the field.
#[tactic(auto, unfolding(rules::specs::Ber::last_at, crate::specs::Read::behind_first))]
pub fn last(field: &[u8], tag: u8, next: u8) -> Option<Place>
    ensures read { result ≡ last_at field.now (behind_first field.now tag) next }
    ensures inside { IfSome result (λ v. v.from + v.len ≡ length field.now) }
{
    let mut reader = Reader::new(field);
    let _first = reader.read(tag);
    ends(field, reader.read(next))
}
