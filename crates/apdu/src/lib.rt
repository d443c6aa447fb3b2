// From bytes to a command (01, "From bytes to a command"): check 1 on the bytes, checks 2 to 5 on the header.

#![tactic(auto)]

ghost use Rattle.std.specs.Prelude.{◌≡◌, ◌+◌, ◌≤◌, ◌<◌, length, IfOk, IfErr};
ghost use Rattle.rules.specs.Fault.{worded};
ghost use Rattle.rules.specs.Command.{le_of, header, parse_long, parse, known, chains, contact_only, admit, check};
ghost use Rattle.apdu.specs.Shape.{Shaped, Uncounted};

use rules::{Fault, Header};

// ---- check 1

// Le 00 means 256.
#[tactic(auto, unfolding(rules::specs::Command::le_of, rules::specs::Bytes::iff))]
fn le_of(b: u8) -> usize
    ensures value { result ≡ le_of b }
    ensures most { result ≤ 256 }
{
    if b == 0 { 256 } else { usize::from(b) }
}

#[tactic(auto, unfolding(rules::specs::Command::header))]
fn header(c: &[u8], lc: usize, le: usize) -> Header
    requires { 4 ≤ length c.now }
    ensures { result ≡ header c.now lc le }
{
    Header {
        cla: c[0],
        ins: c[1],
        p1: c[2],
        p2: c[3],
        lc,
        le,
    }
}

// More than five bytes: Lc (1 to 255), data, perhaps Le. What a header says of its bytes (`Shaped`) is a clause: the type holds no bytes, and others
// promise for any header.
#[tactic(auto, unfolding(rules::specs::Command::parse_long, rules::specs::Command::header, rules::specs::Bytes::iff))]
fn parse_long(c: &[u8], lc: usize) -> Result<Header, Fault>
    requires longer { 5 < length c.now }
    requires few { lc ≤ 255 }
    ensures parsed { worded result ≡ parse_long c.now lc }
    ensures shape { IfOk result (Shaped c.now) }
    ensures fault { IfErr result Uncounted }
{
    if lc == 0 {
        return Err(Fault::WrongLength);
    }
    if c.len() == 5 + lc {
        return Ok(header(c, lc, 256));
    }
    if c.len() == 6 + lc {
        return Ok(header(c, lc, le_of(c[5 + lc])));
    }
    Err(Fault::WrongLength)
}

#[tactic(auto, unfolding(rules::specs::Command::parse, rules::specs::Command::header, rules::specs::Bytes::iff))]
fn parse(c: &[u8]) -> Result<Header, Fault>
    ensures parsed { worded result ≡ parse c.now }
    ensures shape { IfOk result (Shaped c.now) }
    ensures fault { IfErr result Uncounted }
{
    match c.len() {
        4 => Ok(header(c, 0, 256)),
        5 => Ok(header(c, 0, le_of(c[4]))),
        6..=261 => parse_long(c, usize::from(c[4])),
        _ => Err(Fault::WrongLength),
    }
}

// ---- checks 2 to 5

#[tactic(auto, unfolding(rules::specs::Command::known))]
fn known(ins: u8) -> bool
    ensures { result ≡ known ins }
{
    matches!(ins, 0xA4 | 0xCB | 0xC0 | 0x20 | 0x24 | 0x2C | 0x87 | 0xDB)
}

// Only 87 and DB are sent in pieces.
#[tactic(auto, unfolding(rules::specs::Command::chains))]
fn chains(ins: u8) -> bool
    ensures { result ≡ chains ins }
{
    matches!(ins, 0x87 | 0xDB)
}

#[tactic(auto, unfolding(rules::specs::Command::contact_only))]
fn contact_only(ins: u8) -> bool
    ensures { result ≡ contact_only ins }
{
    matches!(ins, 0x20 | 0x24 | 0x2C | 0xDB)
}

#[tactic(auto, unfolding(rules::specs::Command::admit, rules::specs::Bytes::iff))]
fn admit(contactless: bool, h: Header) -> Result<Header, Fault>
    ensures admitted { worded result ≡ admit contactless h }
    ensures same { IfOk result (λ k. k ≡ h) }
    ensures fault { IfErr result Uncounted }
{
    if matches!(h.cla, 0x0C | 0x1C) {
        return Err(Fault::SecureMessaging);
    }
    if !matches!(h.cla, 0x00 | 0x10) {
        return Err(Fault::UnknownCla);
    }
    if !known(h.ins) {
        return Err(Fault::UnknownIns);
    }
    if h.cla == 0x10 && !chains(h.ins) {
        return Err(Fault::NoChaining);
    }
    if contact_only(h.ins) && contactless {
        return Err(Fault::NotSupported);
    }
    Ok(h)
}

#[tactic(auto, unfolding(rules::specs::Command::check, rules::specs::Command::admitted))]
pub fn check(contactless: bool, c: &[u8]) -> Result<Header, Fault>
    ensures checked { worded result ≡ check contactless c.now }
    ensures shape { IfOk result (Shaped c.now) }
    ensures fault { IfErr result Uncounted }
{
    admit(contactless, parse(c)?)
}
