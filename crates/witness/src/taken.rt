// An observation from its struct of numbers.
ghost use Rattle.std.specs.Prelude.{◌≡◌};
ghost use Rattle.witness.specs.Taken.{version_of, ttl_of, payload_of, observation_of};

use crate::PlainObservation;
use observable::TcpObservation;
use quirks::QuirkSet;
use tcp::{IpVersion, Layout, PayloadSize};
use ttl::Ttl;

fn version_of(six: bool) -> IpVersion
    ensures { result ≡ version_of six }
{
    if six { IpVersion::V6 } else { IpVersion::V4 }
}

#[tactic(auto, unfolding(crate::specs::Taken::ttl_of))]
pub(crate) fn ttl_of(form: u8, ttl: u8, hops: u8) -> Ttl
    ensures { result ≡ ttl_of form ttl hops }
{
    match form {
        0 => Ttl::Value(ttl),
        1 => Ttl::Distance(ttl, hops),
        2 => Ttl::Guess(ttl),
        _ => Ttl::Bad(ttl),
    }
}

fn payload_of(empty: bool) -> PayloadSize
    ensures { result ≡ payload_of empty }
{
    if empty {
        PayloadSize::Zero
    } else {
        PayloadSize::NonZero
    }
}

#[tactic(auto, unfolding(crate::specs::Taken::observation_of))]
pub(crate) fn observation_of(o: PlainObservation) -> TcpObservation
    ensures { result ≡ observation_of o }
{
    // Arrays go into a literal without calls through variables (a rule of Rattle).
    let kinds = o.kinds;
    let bytes = o.bytes;
    TcpObservation {
        version: version_of(o.version == 6),
        ittl: ttl_of(o.ttl_form, o.ttl, o.hops),
        olen: o.olen,
        mss: (o.has_mss != 0).then_some(o.mss),
        wsize: o.wsize,
        tot_hdr: o.tot_hdr,
        wscale: (o.has_wscale != 0).then_some(o.wscale),
        olayout: Layout {
            kinds,
            bytes,
            count: o.count,
        },
        quirks: QuirkSet::from_bits(o.quirks),
        pclass: payload_of(o.pclass == 0),
        peer_mss: (o.has_peer_mss != 0).then_some(o.peer_mss),
        tos: o.tos,
    }
}
