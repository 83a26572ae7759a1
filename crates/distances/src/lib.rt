// distances.rs: how far an observation is from a signature, by version, TTL, window and payload.
#![tactic(auto)]

ghost use Rattle.std.specs.Prelude.{◌≡◌};
ghost use Rattle.sigrecord.specs.Record.{version_of, payload_of};
ghost use Rattle.distances.specs.DistanceGates.{version_matches, multiple_matches, window_matches, payload_matches};
ghost use Rattle.distances.specs.Distances.{initial_ttl, is_bad, ttl_fit, reported_hops};

use sigrecord::WindowSize;
use tcp::{IpVersion, PayloadSize};
use ttl::{MAX_DIST, Ttl, guess_distance, observed_ttl};
use window_size::WindowMultiplier;

// The hops against a signature's initial TTL.
#[derive(Clone, Copy)]
pub enum TtlFit {
    InRange(u8),
    OutOfRange(u8),
}

// The gate of the version, read off a record's code: one that is not listed means any, as the record's meaning has it. The code is not made
// an enum first: a search asks this of each record whose layout's count and scale fit.
#[tactic(auto, using(crate::proofs::Codes::v4_passes, crate::proofs::Codes::v6_passes))]
pub fn ip_version_matches(observed: IpVersion, code: u8) -> bool
    ensures { result ≡ version_matches observed (version_of code) }
{
    match observed {
        IpVersion::V4 => code != 6,
        IpVersion::V6 => code != 4,
    }
}

// A signature's initial TTL: with a distance, both halves summed.
fn signature_initial_ttl(signature: Ttl) -> u8
    ensures { result ≡ initial_ttl signature }
{
    match signature {
        Ttl::Value(ttl) | Ttl::Guess(ttl) | Ttl::Bad(ttl) => ttl,
        Ttl::Distance(ttl, distance) => ttl.saturating_add(distance),
    }
}

fn is_bad(signature: Ttl) -> bool
    ensures { result ≡ is_bad signature }
{
    matches!(signature, Ttl::Bad(_))
}

// The observed TTL byte against a signature.
#[tactic(auto, unfolding(crate::specs::Distances::ttl_fit))]
pub fn ttl_fit(observed: u8, signature: Ttl) -> Option<TtlFit>
    ensures { result ≡ ttl_fit observed signature }
{
    let initial = signature_initial_ttl(signature);
    if initial < observed {
        if is_bad(signature) {
            return None;
        }
        return Some(TtlFit::OutOfRange(0));
    }
    let hops = initial - observed;
    if is_bad(signature) {
        return Some(TtlFit::InRange(hops));
    }
    if MAX_DIST < hops {
        return Some(TtlFit::OutOfRange(hops));
    }
    Some(TtlFit::InRange(hops))
}

// The hop count to report: that of a TTL in range, else a guess.
#[tactic(auto, using(crate::proofs::Hops::reported))]
pub fn report_hop_distance(observed: Ttl, signature: Ttl) -> u8
    ensures { result ≡ reported_hops observed signature }
{
    let seen = observed_ttl(observed);
    match ttl_fit(seen, signature) {
        Some(TtlFit::InRange(hops)) => hops,
        _ => guess_distance(seen),
    }
}

// The window is a multiple of the right kind, by the declared factor.
fn multiple_matches(observed: Option<WindowMultiplier>, declared: u8, of_mtu: bool) -> bool
    ensures { result ≡ multiple_matches observed declared of_mtu }
{
    let Some(found) = observed else {
        return false;
    };
    found.multiple == u16::from(declared) && found.of_mtu == of_mtu
}

#[tactic(auto, unfolding(crate::specs::DistanceGates::window_matches))]
pub fn window_size_matches(
    observed: u16,
    signature: WindowSize,
    multiplier: Option<WindowMultiplier>,
) -> bool
    ensures { result ≡ window_matches observed signature multiplier }
{
    match signature {
        WindowSize::Any => true,
        WindowSize::Value(value) => observed == value,
        WindowSize::Mod(modulus) => modulus != 0 && observed % modulus == 0,
        WindowSize::Mss(multiple) => multiple_matches(multiplier, multiple, false),
        WindowSize::Mtu(multiple) => multiple_matches(multiplier, multiple, true),
    }
}

// The gate of the payload, read off a record's code, as that of the version.
#[tactic(auto, using(crate::proofs::Codes::empty_passes, crate::proofs::Codes::data_passes))]
pub fn payload_size_matches(observed: PayloadSize, code: u8) -> bool
    ensures { result ≡ payload_matches observed (payload_of code) }
{
    match observed {
        PayloadSize::Zero => code != 1,
        PayloadSize::NonZero => code != 0,
    }
}
