// window_size.rs: a window as a multiple of an MSS or of an MTU.
#![tactic(auto)]

ghost use Rattle.std.specs.Prelude.{◌≡◌, cond, map};
ghost use Rattle.window_size.specs.Divisors.{divides, held, holding, twelve};
ghost use Rattle.window_size.specs.Multiplier.{first_multiple, multiplier_of};
ghost use Rattle.window_size.specs.Stamp.{stamp_may_decide};

use numbers::{saturating_add, saturating_sub};
use tcp::IpVersion;

// A window as a multiple of an MSS, or, with of_mtu, of an MTU.
#[derive(Clone, Copy)]
pub struct WindowMultiplier {
    // The window over the first divisor that divides it.
    pub multiple: u16,
    pub of_mtu: bool,
}

// A divisor to try, 0 where it does not apply, and whether it is an MTU.
#[derive(Clone, Copy)]
pub struct Divisor {
    pub size: u16,
    pub of_mtu: bool,
}

// IPv4 and TCP headers without options.
const MIN_TCP4: u16 = 40;
// IPv6 and TCP headers without options.
const MIN_TCP6: u16 = 60;
// Ethernet's MTU.
const ETH_MTU: u16 = 1500;
// A padded timestamps option.
const TS_SIZE: u16 = 12;
// Below this an MSS says nothing of the window.
const MIN_USEFUL_MSS: u16 = 100;

fn only_if(applies: bool, divisor: u16) -> u16
    ensures { result ≡ cond applies divisor 0 }
{
    if applies { divisor } else { 0 }
}

// The twelve divisors in p0f's order.
fn divisors(
    mss: u16,
    tot_hdr: u16,
    own_timestamp_is_nonzero: bool,
    ipv6: bool,
    peer: u16,
) -> [Divisor; 12]
    ensures { result ≡ map held (twelve mss tot_hdr own_timestamp_is_nonzero ipv6 peer) }
{
    [
        Divisor {
            size: mss,
            of_mtu: false,
        },
        Divisor {
            size: only_if(own_timestamp_is_nonzero, saturating_sub(mss, TS_SIZE)),
            of_mtu: false,
        },
        Divisor {
            size: ETH_MTU - MIN_TCP4,
            of_mtu: false,
        },
        Divisor {
            size: ETH_MTU - (MIN_TCP4 + TS_SIZE),
            of_mtu: false,
        },
        Divisor {
            size: only_if(ipv6, ETH_MTU - MIN_TCP6),
            of_mtu: false,
        },
        Divisor {
            size: only_if(ipv6, ETH_MTU - (MIN_TCP6 + TS_SIZE)),
            of_mtu: false,
        },
        Divisor {
            size: saturating_add(mss, MIN_TCP4),
            of_mtu: true,
        },
        Divisor {
            size: saturating_add(mss, tot_hdr),
            of_mtu: true,
        },
        Divisor {
            size: only_if(ipv6, saturating_add(mss, MIN_TCP6)),
            of_mtu: true,
        },
        Divisor {
            size: ETH_MTU,
            of_mtu: true,
        },
        Divisor {
            size: peer,
            of_mtu: false,
        },
        Divisor {
            size: saturating_sub(peer, TS_SIZE),
            of_mtu: false,
        },
    ]
}

// A size of 0 is passed over: it divides nothing.
#[tactic(auto, unfolding(crate::specs::Divisors::divides))]
fn divides(size: u16, wsize: u16) -> bool
    ensures { result ≡ divides size wsize }
{
    size != 0 && wsize % size == 0
}

// The first divisor that is not 0 and divides the window.
fn first_multiple(wsize: u16, divisors: [Divisor; 12]) -> Option<WindowMultiplier>
    ensures { result ≡ first_multiple wsize (map holding divisors) }
{
    for divisor in divisors {
        if divides(divisor.size, wsize) {
            return Some(WindowMultiplier {
                multiple: wsize / divisor.size,
                of_mtu: divisor.of_mtu,
            });
        }
    }
    None
}

// Whether the own timestamp may decide: the MSS itself, the first of the twelve, does not divide the window, and the second, which applies
// only with a timestamp, does.
#[tactic(auto, unfolding(crate::specs::Stamp::stamp_may_decide))]
pub fn stamp_may_decide(wsize: u16, mss: Option<u16>) -> bool
    ensures { result ≡ stamp_may_decide wsize mss }
{
    let Some(size) = mss else {
        return false;
    };
    MIN_USEFUL_MSS <= size && !divides(size, wsize) && divides(saturating_sub(size, TS_SIZE), wsize)
}

// The multiplier of a window: by the first of the twelve divisors that divides it. The MSS itself is tried before the others are computed.
#[tactic(auto, using(crate::proofs::Laws::first_held, crate::proofs::Laws::own_first), unfolding(crate::specs::Multiplier::multiplier_of))]
pub fn detect_win_multi(
    wsize: u16,
    mss: Option<u16>,
    tot_hdr: u16,
    own_timestamp_is_nonzero: bool,
    version: IpVersion,
    peer_mss: Option<u16>,
) -> Option<WindowMultiplier>
    ensures { result ≡ multiplier_of wsize mss tot_hdr own_timestamp_is_nonzero version peer_mss }
{
    if wsize == 0 {
        return None;
    }
    let size = mss?;
    if size < MIN_USEFUL_MSS {
        return None;
    }
    if divides(size, wsize) {
        return Some(WindowMultiplier {
            multiple: wsize / size,
            of_mtu: false,
        });
    }
    let row = divisors(
        size,
        tot_hdr,
        own_timestamp_is_nonzero,
        matches!(version, IpVersion::V6),
        peer_mss.unwrap_or(0),
    );
    first_multiple(wsize, row)
}
