// observable.rs: what is observed of a SYN or SYN+ACK.
#![tactic(auto)]

ghost use Rattle.std.specs.Prelude.{◌≡◌};
ghost use Rattle.observable.specs.Observation.{holds_kind, own_timestamp_nonzero, window_multiplier, empty_observation};

use numbers::least;
use quirks::{Quirk, QuirkSet};
use tcp::{IpVersion, Layout, PayloadSize};
use ttl::Ttl;
use window_size::{WindowMultiplier, detect_win_multi, stamp_may_decide};

#[derive(Clone, Copy)]
pub struct TcpObservation {
    pub version: IpVersion,
    // The TTL reading.
    pub ittl: Ttl,
    // Bytes of IPv4 options or IPv6 extension headers.
    pub olen: u8,
    pub mss: Option<u16>,
    // The window as it was seen.
    pub wsize: u16,
    // Bytes of the IP and TCP headers, options included.
    pub tot_hdr: u16,
    pub wscale: Option<u8>,
    // The options in their order.
    pub olayout: Layout,
    pub quirks: QuirkSet,
    pub pclass: PayloadSize,
    // The MSS of the peer's SYN, on a SYN+ACK; absent on a SYN.
    pub peer_mss: Option<u16>,
    // IPv4 DSCP, or the six upper bits of the IPv6 traffic class.
    pub tos: u8,
}

// The kind of a timestamps option.
const TIMESTAMPS: u8 = 8;

impl TcpObservation {
    // What stands beside a refusal or "nothing".
    pub fn empty() -> Self
        ensures { result ≡ empty_observation }
    {
        TcpObservation {
            version: IpVersion::V4,
            ittl: Ttl::Value(0),
            olen: 0,
            mss: None,
            wsize: 0,
            tot_hdr: 0,
            wscale: None,
            olayout: Layout {
                kinds: [0u8; 40],
                bytes: [0u8; 40],
                count: 0,
            },
            quirks: QuirkSet::EMPTY,
            pclass: PayloadSize::Zero,
            peer_mss: None,
            tos: 0,
        }
    }

    // The window as a multiple of an MSS or MTU, if it is one. The layout is searched for a timestamps option only where that may decide.
    #[tactic(auto, using(window_size::proofs::Stamp::stamp_idle), unfolding(crate::specs::Observation::window_multiplier))]
    pub fn window_multiplier(self) -> Option<WindowMultiplier>
        ensures { result ≡ window_multiplier self }
    {
        let stamped = stamp_may_decide(self.wsize, self.mss) && self.own_timestamp_is_nonzero();
        detect_win_multi(
            self.wsize,
            self.mss,
            self.tot_hdr,
            stamped,
            self.version,
            self.peer_mss,
        )
    }

    // The layout holds a timestamps option, and its own timestamp is not known to be 0.
    #[tactic(auto, unfolding(crate::specs::Observation::own_timestamp_nonzero))]
    pub fn own_timestamp_is_nonzero(self) -> bool
        ensures { result ≡ own_timestamp_nonzero self }
    {
        !self.quirks.contains(Quirk::OwnTimestampZero) && holds_kind(&self.olayout, TIMESTAMPS)
    }
}

// Some entry of a layout is of a kind; a count over 40 reads all forty.
fn holds_kind(layout: &Layout, kind: u8) -> bool
    ensures { result ≡ holds_kind kind layout.now.count layout.now.kinds }
{
    layout.kinds[0..least(layout.count, 40)].contains(&kind)
}
