// matching.rs: how an observation fits a signature. Its gates of version, window and payload are in `distances`.
#![tactic(auto)]

ghost use Rattle.std.specs.Prelude.{◌≡◌};
ghost use Rattle.sigrecord.specs.Record.{signature_of};
ghost use Rattle.matching.specs.Gates.{olen_matches, fits_declared, mss_matches, scale_matches, good_layout_fits};
ghost use Rattle.matching.specs.Tolerance.{masked_quirks, quirks_fit, judge_in_range, judge};
ghost use Rattle.matching.specs.Fit.{features_of, passes, tolerance_of};
ghost use Rattle.matching.specs.Asked.{count_and_scale_match, other_gates_match};

use distances::{TtlFit, ip_version_matches, payload_size_matches, ttl_fit};
use gates::{entries_match, window_gate};
use numbers::byte_at;
use observable::TcpObservation;
use quirks::QuirkSet;
use sigrecord::{
    OPTION_LENGTH, PAYLOAD, SigVersion, VERSION, entry_count, mss_of, quirks_of, scale_of, ttl_of,
    version_of,
};
use tcp::{IpVersion, PayloadSize};
use ttl::{Ttl, observed_ttl};
use window_size::WindowMultiplier;

mod gates;

// What a fit looks at in an observation, the entries of the layout apart.
#[derive(Clone, Copy)]
pub struct Features {
    pub version: IpVersion,
    pub ttl: u8,
    pub olen: u8,
    pub mss: Option<u16>,
    pub wsize: u16,
    pub multiplier: Option<WindowMultiplier>,
    pub wscale: Option<u8>,
    pub pclass: PayloadSize,
    pub quirks: QuirkSet,
    pub count: usize,
}

// The quirks that had to be tolerated: the original's `QuirksFit`.
#[derive(Clone, Copy)]
pub struct Tolerated {
    // Shown by the traffic, not declared by the signature.
    pub added: QuirkSet,
    // Declared by the signature, not shown by the traffic.
    pub missing: QuirkSet,
}

#[derive(Clone, Copy)]
pub struct FuzzyReason {
    pub hops: Option<u8>,
    pub added: QuirkSet,
    pub missing: QuirkSet,
}

// Not an Option: none, exact and fuzzy are three answers, which the product never blurs.
#[derive(Clone, Copy)]
pub enum SignatureFit {
    None,
    Exact,
    Fuzzy(FuzzyReason),
}

// ---- the gates

// The option length is a gate; no signature leaves it open.
#[tactic(auto, unfolding(crate::specs::Gates::olen_matches))]
pub fn olen_matches(observed: u8, signature: u8) -> bool
    ensures { result ≡ olen_matches observed signature }
{
    observed == signature
}

// A declared number is a gate; none declared lets any pass.
fn fits_declared<N: Copy + PartialEq>(observed: Option<N>, signature: Option<N>) -> bool
    ensures { result ≡ fits_declared N.eq observed signature }
{
    match (observed, signature) {
        (_, None) => true,
        (None, Some(_)) => false,
        (Some(seen), Some(declared)) => seen == declared,
    }
}

#[tactic(auto, using(crate::proofs::Declared::mss_fits))]
pub fn mss_matches(observed: Option<u16>, signature: Option<u16>) -> bool
    ensures { result ≡ mss_matches observed signature }
{
    fits_declared(observed, signature)
}

#[tactic(auto, using(crate::proofs::Declared::scale_fits))]
pub fn wscale_matches(observed: Option<u8>, signature: Option<u8>) -> bool
    ensures { result ≡ scale_matches observed signature }
{
    // A `return`, so that a wrong answer can be tried of the MSS alone (must-fail/absent_mss_fits.edit).
    return fits_declared(observed, signature);
}

// The layout gate: the count, then each kind and byte up to it. Entries that no well-formed record has match nothing, so that a
// search need not walk over them again.
#[tactic(auto, unfolding(crate::specs::Gates::layout_matches))]
pub fn olayout_matches(
    kinds: &[u8],
    bytes: &[u8],
    count: usize,
    entries: &[u8],
    declared: usize,
) -> bool
    ensures { result ≡ good_layout_fits count kinds.now bytes.now declared entries.now }
{
    count == declared
        && declared <= kinds.len()
        && declared <= bytes.len()
        && 2 * declared <= entries.len()
        && entries_match(kinds, bytes, entries, declared)
}

// The count of a record's entries and its scale: the gates that reject most records, so that a search asks them first. This function and
// the next are total: bytes past the end are 0.
#[tactic(auto, unfolding(crate::specs::Asked::count_and_scale_match))]
pub fn count_and_scale_match(count: u8, wscale: Option<u8>, raw: &[u8]) -> bool
    ensures { result ≡ count_and_scale_match count wscale raw.now }
{
    count == entry_count(raw) && wscale_matches(wscale, scale_of(raw))
}

// The other gates of a record but for the entries of its layout, in the order in which they reject most.
#[tactic(auto, unfolding(crate::specs::Asked::other_gates_match, sigrecord::specs::Record::signature_of))]
pub fn other_gates_match(observed: Features, raw: &[u8]) -> bool
    ensures { result ≡ other_gates_match observed raw.now }
{
    mss_matches(observed.mss, mss_of(raw))
        && window_gate(observed.wsize, observed.multiplier, raw)
        && olen_matches(observed.olen, byte_at(raw, OPTION_LENGTH))
        && payload_size_matches(observed.pclass, byte_at(raw, PAYLOAD))
        && ip_version_matches(observed.version, byte_at(raw, VERSION))
}

// The gates of a record but for the entries of its layout, as one answer. It is total: bytes past the end are 0.
#[tactic(auto, using(crate::proofs::Asked::passes_in_two_steps), unfolding(crate::specs::Asked::count_and_scale_match))]
pub fn passes_gates(observed: Features, raw: &[u8]) -> bool
    ensures { result ≡ passes observed raw.now }
{
    observed.count == usize::from(entry_count(raw))
        && wscale_matches(observed.wscale, scale_of(raw))
        && other_gates_match(observed, raw)
}

// ---- what may be tolerated

// A signature of any version drops the quirks that only the other version has.
#[tactic(auto, using(crate::proofs::Bits::masks), unfolding(crate::specs::Tolerance::masked_quirks))]
pub fn mask_signature_quirks(
    quirks: QuirkSet,
    signature: SigVersion,
    observed: IpVersion,
) -> QuirkSet
    ensures { result ≡ masked_quirks quirks signature observed }
{
    match (signature, observed) {
        (SigVersion::Any, IpVersion::V4) => quirks.difference(QuirkSet::MASK_WHEN_OBS_V4),
        (SigVersion::Any, IpVersion::V6) => quirks.difference(QuirkSet::MASK_WHEN_OBS_V6),
        _ => quirks,
    }
}

// The tolerance: df and id+ may be missing, id- and ecn may be added, any other difference rejects.
#[tactic(auto, using(crate::proofs::Bits::tolerated), unfolding(crate::specs::Tolerance::quirks_fit))]
pub fn quirks_fit(observed: QuirkSet, signature: QuirkSet) -> Option<Tolerated>
    ensures { result ≡ quirks_fit observed signature }
{
    let missing = signature.difference(observed);
    let added = observed.difference(signature);
    let tolerated = missing.difference(QuirkSet::FUZZY_DELETABLE).is_empty()
        && added.difference(QuirkSet::FUZZY_ADDABLE).is_empty();
    tolerated.then_some(Tolerated { added, missing })
}

// ---- the fit

// What a fit looks at in an observation; the window's multiplier is computed here, once.
#[tactic(auto, unfolding(crate::specs::Fit::features_of))]
pub fn features_of(observed: TcpObservation) -> Features
    ensures { result ≡ features_of observed }
{
    Features {
        version: observed.version,
        ttl: observed_ttl(observed.ittl),
        olen: observed.olen,
        mss: observed.mss,
        wsize: observed.wsize,
        multiplier: observed.window_multiplier(),
        wscale: observed.wscale,
        pclass: observed.pclass,
        quirks: observed.quirks,
        count: observed.olayout.count,
    }
}

// The TTL and the quirks together: nothing tolerated is exact.
#[tactic(auto, unfolding(crate::specs::Tolerance::judge))]
fn judgement(ttl: Option<TtlFit>, quirks: Option<Tolerated>) -> SignatureFit
    ensures { result ≡ judge ttl quirks }
{
    let Some(fit) = ttl else {
        return SignatureFit::None;
    };
    let Some(found) = quirks else {
        return SignatureFit::None;
    };
    match fit {
        TtlFit::InRange(_) => in_range(found),
        TtlFit::OutOfRange(hops) => SignatureFit::Fuzzy(FuzzyReason {
            hops: Some(hops),
            added: found.added,
            missing: found.missing,
        }),
    }
}

#[tactic(auto, unfolding(crate::specs::Tolerance::judge_in_range))]
fn in_range(found: Tolerated) -> SignatureFit
    ensures { result ≡ judge_in_range found }
{
    if found.added.is_empty() && found.missing.is_empty() {
        return SignatureFit::Exact;
    }
    SignatureFit::Fuzzy(FuzzyReason {
        hops: None,
        added: found.added,
        missing: found.missing,
    })
}

// The TTL and the quirks of a record whose gates hold; nothing else of it is decoded.
#[tactic(auto, unfolding(crate::specs::Fit::tolerance_of))]
pub fn tolerance(observed: Features, raw: &[u8]) -> SignatureFit
    ensures { result ≡ tolerance_of observed (signature_of raw.now) }
{
    let masked = mask_signature_quirks(quirks_of(raw), version_of(raw), observed.version);
    judgement(
        ttl_fit(observed.ttl, ttl_of(raw)),
        quirks_fit(observed.quirks, masked),
    )
}
