// How each field of a record meets an observation: the gates of `matching` and `distances`, asked one by one, each to its end.
ghost use Rattle.std.specs.Prelude.{◌≡◌, true, ◌<◌};
ghost use Rattle.sigrecord.specs.Layout.{entries_good};
ghost use Rattle.sigrecord.specs.Record.{entry_count};
ghost use Rattle.explain.specs.Gating.{gates_by, gates_at, gate_said, ttl_said, quirks_said, row_of, fails};

use bundle_lines::CheckedList;
use distances::{TtlFit, ip_version_matches, payload_size_matches, ttl_fit, window_size_matches};
use matching::{
    Features, Tolerated, mask_signature_quirks, mss_matches, olayout_matches, olen_matches,
    quirks_fit, wscale_matches,
};
use numbers::byte_at;
use siglist::record_at;
use sigrecord::{PAYLOAD, VERSION, entry_count, first_entry, signature_of};
use tcp::Layout;

// What each field's gate answers.
#[derive(Clone, Copy)]
pub struct Gates {
    pub version: bool,
    pub ttl: Option<TtlFit>,
    pub olen: bool,
    pub mss: bool,
    pub wsize: bool,
    pub wscale: bool,
    pub olayout: bool,
    pub quirks: Option<Tolerated>,
    pub pclass: bool,
}

// What is said of a field.
#[derive(Clone, Copy, PartialEq, Eq)]
pub enum Said {
    Holds,
    Tolerated,
    Fails,
}

// What was seen of a packet, its options, and the list whose records are held against it, which passed its check.
#[derive(Clone, Copy)]
pub struct Compared<'a> {
    pub seen: Features,
    pub layout: Layout,
    pub passed: CheckedList<'a>,
}

// ---- the gates

impl Compared<'_> {
    // The gates of a record whose entries are good, as those of every list that passed its check are.
    #[tactic(auto, using(crate::proofs::Laws::same_fit), unfolding(crate::specs::Gating::gates_of, sigrecord::specs::Record::signature_of))]
    fn gates_of(&self, raw: &[u8], entries: &[u8]) -> Gates
        requires { entries_good entries.now (entry_count raw.now) ≡ true }
        ensures { result ≡ gates_by self.now.seen self.now.layout.kinds self.now.layout.bytes raw.now entries.now }
    {
        let seen = self.seen;
        let declared = signature_of(raw);
        let masked = mask_signature_quirks(declared.quirks, declared.version, seen.version);
        let kinds = &self.layout.kinds;
        let bytes = &self.layout.bytes;
        Gates {
            version: ip_version_matches(seen.version, byte_at(raw, VERSION)),
            ttl: ttl_fit(seen.ttl, declared.ittl),
            olen: olen_matches(seen.olen, declared.olen),
            mss: mss_matches(seen.mss, declared.mss),
            wsize: window_size_matches(seen.wsize, declared.wsize, seen.multiplier),
            wscale: wscale_matches(seen.wscale, declared.wscale),
            olayout: olayout_matches(kinds, bytes, seen.count, entries, entry_count(raw) as usize),
            quirks: quirks_fit(seen.quirks, masked),
            pclass: payload_size_matches(seen.pclass, byte_at(raw, PAYLOAD)),
        }
    }

    // The gates of record i of the list.
    pub(crate) fn gates_at(&self, i: u16) -> Gates
        requires { i < self.now.passed.list.areas.records }
        ensures { result ≡ gates_at self.now.seen self.now.layout.kinds self.now.layout.bytes self.now.passed.list.bytes.now i }
    {
        let list = &self.passed.list;
        let raw = record_at(list.bytes, list.areas, i as usize);
        let entries_offset = list.areas.entries_offset;
        let start = entries_offset as usize + 2 * first_entry(raw) as usize;
        let end = start + 2 * entry_count(raw) as usize;
        self.gates_of(raw, &list.bytes[start..end])
    }
}

// ---- what is said of the fields

fn gate_said(holds: bool) -> Said
    ensures { result ≡ gate_said holds }
{
    if holds { Said::Holds } else { Said::Fails }
}

fn ttl_said(fit: Option<TtlFit>) -> Said
    ensures { result ≡ ttl_said fit }
{
    match fit {
        Some(TtlFit::InRange(_)) => Said::Holds,
        Some(TtlFit::OutOfRange(_)) => Said::Tolerated,
        None => Said::Fails,
    }
}

fn quirks_said(fit: Option<Tolerated>) -> Said
    ensures { result ≡ quirks_said fit }
{
    match fit {
        Some(q) if q.added.is_empty() && q.missing.is_empty() => Said::Holds,
        Some(_) => Said::Tolerated,
        None => Said::Fails,
    }
}

// The nine fields, in the order of a line's.
#[tactic(auto, unfolding(crate::specs::Gating::row_of))]
pub(crate) fn row_of(gates: Gates) -> [Said; 9]
    ensures { result ≡ row_of gates }
{
    [
        gate_said(gates.version),
        ttl_said(gates.ttl),
        gate_said(gates.olen),
        gate_said(gates.mss),
        gate_said(gates.wsize),
        gate_said(gates.wscale),
        gate_said(gates.olayout),
        quirks_said(gates.quirks),
        gate_said(gates.pclass),
    ]
}

// How many fields fail.
pub(crate) fn failing(row: &[Said; 9]) -> usize
    ensures { result ≡ fails row.now }
{
    let mut fields = 0;
    for said in row {
        if matches!(said, Said::Fails) {
            fields += 1;
        }
    }
    fields
}
