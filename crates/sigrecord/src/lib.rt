// A record of the signature list (document 01, "The signature list"; document 02, Wish 3): its bytes, what they mean, when it is well
// formed, and the entries of its layout. Added by the port; the types are those of the original's signatures.
#![tactic(auto)]

ghost use Rattle.std.specs.Prelude.{◌≡◌, ◌/◌, length};
ghost use Rattle.basis.specs.Bytes.{be32};
ghost use Rattle.sigrecord.specs.Layout.{entry_good, entries_good};
ghost use Rattle.sigrecord.specs.Record.{signature_of, first_entry, entry_count, label_of, is_generic};
ghost use Rattle.sigrecord.specs.WellFormed.{quirks_good, forms_well_formed, scalars_well_formed};

use conditions::forms_good;
use numbers::{be16_at, be32, byte_at};
use quirks::QuirkSet;
use ttl::Ttl;

mod conditions;
mod seen;

// The bytes of a record.
pub const RECORD: usize = 24;

// Where each number of a record stands.
pub const VERSION: usize = 0;

pub const TTL_FORM: usize = 1;

pub const TTL: usize = 2;

pub const DISTANCE: usize = 3;

pub const OPTION_LENGTH: usize = 4;

pub const MSS_PRESENT: usize = 5;

pub const MSS: usize = 6;

pub const WINDOW_FORM: usize = 8;

pub const WINDOW: usize = 9;

pub const WINDOW_LOW: usize = 10;

pub const SCALE_PRESENT: usize = 11;

pub const SCALE: usize = 12;

pub const PAYLOAD: usize = 13;

pub const QUIRKS: usize = 14;

pub const QUIRKS_LOW: usize = 16;

pub const FIRST_ENTRY: usize = 18;

pub const ENTRY_COUNT: usize = 20;

pub const GENERIC: usize = 21;

pub const LABEL: usize = 22;

// The IP version that a signature declares.
#[derive(Clone, Copy)]
pub enum SigVersion {
    Any,
    V4,
    V6,
}

// The payload that a signature declares.
#[derive(Clone, Copy)]
pub enum SigPayload {
    Zero,
    NonZero,
    Any,
}

// The window that a signature declares.
#[derive(Clone, Copy)]
pub enum WindowSize {
    Any,
    Value(u16),
    // A multiple of this modulus.
    Mod(u16),
    // So many times the MSS.
    Mss(u8),
    // So many times the MTU.
    Mtu(u8),
}

// A signature, its layout apart, which stays where it lies in the list.
#[derive(Clone, Copy)]
pub struct Signature {
    pub version: SigVersion,
    pub ittl: Ttl,
    pub olen: u8,
    pub mss: Option<u16>,
    pub wsize: WindowSize,
    pub wscale: Option<u8>,
    pub pclass: SigPayload,
    pub quirks: QuirkSet,
}

// ---- what the bytes of a record mean, on every byte string

#[tactic(auto, unfolding(crate::specs::Record::signature_of, crate::specs::Record::version_of))]
pub fn version_of(raw: &[u8]) -> SigVersion
    ensures { result ≡ (signature_of raw.now).version }
{
    match byte_at(raw, VERSION) {
        4 => SigVersion::V4,
        6 => SigVersion::V6,
        _ => SigVersion::Any,
    }
}

#[tactic(auto, unfolding(crate::specs::Record::signature_of, crate::specs::Record::ttl_of))]
pub fn ttl_of(raw: &[u8]) -> Ttl
    ensures { result ≡ (signature_of raw.now).ittl }
{
    let form = byte_at(raw, TTL_FORM);
    let ttl = byte_at(raw, TTL);
    match form {
        0 => Ttl::Value(ttl),
        1 => Ttl::Distance(ttl, byte_at(raw, DISTANCE)),
        2 => Ttl::Guess(ttl),
        _ => Ttl::Bad(ttl),
    }
}

// Two functions, this and `scale_of`: they read other bytes, a number of two and one of one.
#[tactic(auto, unfolding(crate::specs::Record::signature_of, crate::specs::Record::mss_of))]
pub fn mss_of(raw: &[u8]) -> Option<u16>
    ensures { result ≡ (signature_of raw.now).mss }
{
    (byte_at(raw, MSS_PRESENT) != 0).then_some(be16_at(raw, MSS))
}

#[tactic(auto, unfolding(crate::specs::Record::signature_of, crate::specs::Record::window_of))]
pub fn window_of(raw: &[u8]) -> WindowSize
    ensures { result ≡ (signature_of raw.now).wsize }
{
    let form = byte_at(raw, WINDOW_FORM);
    let number = be16_at(raw, WINDOW);
    match form {
        0 => WindowSize::Any,
        1 => WindowSize::Value(number),
        2 => WindowSize::Mod(number),
        3 => WindowSize::Mss((number % 256) as u8),
        _ => WindowSize::Mtu((number % 256) as u8),
    }
}

#[tactic(auto, unfolding(crate::specs::Record::signature_of, crate::specs::Record::scale_of))]
pub fn scale_of(raw: &[u8]) -> Option<u8>
    ensures { result ≡ (signature_of raw.now).wscale }
{
    (byte_at(raw, SCALE_PRESENT) != 0).then_some(byte_at(raw, SCALE))
}

#[tactic(auto, unfolding(crate::specs::Record::signature_of, crate::specs::Record::payload_of))]
fn payload_of(raw: &[u8]) -> SigPayload
    ensures { result ≡ (signature_of raw.now).pclass }
{
    match byte_at(raw, PAYLOAD) {
        0 => SigPayload::Zero,
        1 => SigPayload::NonZero,
        _ => SigPayload::Any,
    }
}

#[tactic(auto, unfolding(crate::specs::Record::signature_of, basis::specs::Bytes::be32))]
pub fn quirks_of(raw: &[u8]) -> QuirkSet
    ensures { result ≡ (signature_of raw.now).quirks }
{
    QuirkSet::from_bits(be32(be16_at(raw, QUIRKS), be16_at(raw, QUIRKS_LOW)))
}

// The signature of a record, its layout apart.
#[tactic(auto, unfolding(crate::specs::Record::signature_of))]
pub fn signature_of(raw: &[u8]) -> Signature
    ensures { result ≡ signature_of raw.now }
{
    Signature {
        version: version_of(raw),
        ittl: ttl_of(raw),
        olen: byte_at(raw, OPTION_LENGTH),
        mss: mss_of(raw),
        wsize: window_of(raw),
        wscale: scale_of(raw),
        pclass: payload_of(raw),
        quirks: quirks_of(raw),
    }
}

// The layout of a record lies among the list's entries: the number of its first one, and how many they are.
pub fn first_entry(raw: &[u8]) -> u16
    ensures { result ≡ first_entry raw.now }
{
    be16_at(raw, FIRST_ENTRY)
}

pub fn entry_count(raw: &[u8]) -> u8
    ensures { result ≡ entry_count raw.now }
{
    byte_at(raw, ENTRY_COUNT)
}

pub fn label_of(raw: &[u8]) -> u16
    ensures { result ≡ label_of raw.now }
{
    be16_at(raw, LABEL)
}

// Whether a record is generic: a last resort, behind every specific one that fits exactly.
pub fn is_generic(raw: &[u8]) -> bool
    ensures { result ≡ is_generic raw.now }
{
    byte_at(raw, GENERIC) == 1
}

// ---- when a record is well formed

// A record, given as its bytes, is well formed but for its layout.
#[tactic(auto, using(crate::proofs::Laws::quirks_last))]
pub fn scalars_well_formed(raw: &[u8]) -> bool
    ensures { result ≡ scalars_well_formed raw.now }
{
    forms_well_formed(raw) && quirks_good(raw)
}

// The same but for its quirks. The check of a list asks for both one after the other: as one function they are more than this compiler
// sets in place (docs/DECISIONS.md, 116).
#[tactic(auto, unfolding(crate::specs::WellFormed::forms_well_formed))]
pub fn forms_well_formed(raw: &[u8]) -> bool
    ensures { result ≡ forms_well_formed raw.now }
{
    raw.len() == RECORD && forms_good(raw)
}

#[tactic(auto, using(crate::proofs::Bits::known), unfolding(crate::specs::WellFormed::quirks_good, crate::specs::Record::signature_of))]
pub fn quirks_good(raw: &[u8]) -> bool
    ensures { result ≡ quirks_good (be32 raw.now 14) }
{
    quirks_of(raw).difference(QuirkSet::SEVENTEEN).is_empty()
}

// A layout entry is an option kind and a byte: bytes left after kind 0, else 0. Most bytes are 0, so the byte is tested first.
#[tactic(auto, unfolding(crate::specs::Layout::entry_good))]
pub fn entry_good(kind: u8, byte: u8) -> bool
    ensures { result ≡ entry_good kind byte }
{
    byte == 0 || kind == 0
}

// Every entry of a row of entries, kind before byte: the test of `entry_good` as two branches, which this compiler leaves apart (five
// instructions an entry, seven as a call).
pub fn entries_good(entries: &[u8]) -> bool
    ensures { result ≡ entries_good entries.now (length entries.now / 2) }
{
    for i in 0..entries.len() / 2 {
        let byte = entries[2 * i + 1];
        if byte != 0 && entries[2 * i] != 0 {
            return false;
        }
    }
    true
}
