// The bundle (document 01, "The bundle program"): added by the port. A bundle is checked first, then each packet has its answer.
#![tactic(auto)]

ghost use Rattle.std.specs.Prelude.{◌≡◌, ◌+◌, ◌≤◌, length};
ghost use Rattle.bundle.specs.Bundle.{ListWithin, list_of, packet_end, packet_fits, packets_fit, list_lies};
ghost use Rattle.bundle.specs.Bundle.{bundle_fits, as_refusal, check_bundle};
ghost use Rattle.bundle.specs.Answers.{packet_at, packet_at_in};

use flow::Mode;
use numbers::{be16, be16_at};
use packet_answer::{PacketAnswer, answer_packet_in, peer_of};
use refusals::{ListRefusal, PacketRefusal, Refusal};
use siglist::check_list;

// Why a bundle, or its list, is refused.
#[derive(Clone, Copy)]
pub enum BundleRefusal {
    DoesNotFit,
    List(ListRefusal),
}

impl From<ListRefusal> for BundleRefusal {
    ghost use Rattle.bundle.specs.declared.BundleRefusal.{BundleRefusal};

    ghost from_gives = { λ r e. e ≡ BundleRefusal.List r };

    fn from(refusal: ListRefusal) -> BundleRefusal {
        BundleRefusal::List(refusal)
    }
}

impl From<BundleRefusal> for Refusal {
    ghost from_gives = { λ r e. e ≡ as_refusal r };

    fn from(refusal: BundleRefusal) -> Refusal {
        match refusal {
            BundleRefusal::DoesNotFit => Refusal::BundleDoesNotFit,
            BundleRefusal::List(why) => Refusal::List(why),
        }
    }
}

// What is at a place of a bundle: the answer of the packet that starts there, and where it ends.
#[derive(Clone, Copy)]
pub struct PacketAt {
    pub answer: Result<PacketAnswer, PacketRefusal>,
    pub end: usize,
}

const MOST: usize = 65535;

const HEADER: usize = 8;

// What stands before a packet's bytes: its peer's MSS and its length.
const BEFORE: usize = 4;

// ---- the check

// The end of the packet that starts at a place. (By `be16_at`, which is total, tried: the check of a bundle of many packets takes nearly
// twice the time.)
#[tactic(auto, unfolding(crate::specs::Bundle::packet_end, basis::specs::Bytes::be16))]
fn packet_end(bundle: &[u8], at: usize) -> usize
    requires { at + 4 ≤ length bundle.now }
    ensures { result ≡ packet_end bundle.now at }
{
    at + BEFORE + be16(bundle[at + 2], bundle[at + 3]) as usize
}

#[tactic(auto, unfolding(crate::specs::Bundle::packet_fits))]
fn packet_fits(bundle: &[u8], at: usize) -> bool
    ensures { result ≡ packet_fits bundle.now at }
{
    if bundle.len() < BEFORE {
        return false;
    }
    if bundle.len() - BEFORE < at {
        return false;
    }
    packet_end(bundle, at) <= bundle.len()
}

// Whether so many packets fit, each where the one before it ends.
#[tactic(auto, using(crate::proofs::Packets::turns))]
fn packets_fit(bundle: &[u8], offset: usize, count: usize) -> bool
    ensures { result ≡ packets_fit bundle.now offset count }
{
    let mut at = offset;
    for _ in 0..count {
        if !packet_fits(bundle, at) {
            return false;
        }
        at = packet_end(bundle, at);
    }
    at <= bundle.len()
}

// Whether the header and the list's area fit.
#[tactic(auto, unfolding(crate::specs::Bundle::list_lies))]
fn list_lies(bundle: &[u8]) -> bool
    ensures { result ≡ list_lies bundle.now }
{
    if bundle.len() < HEADER {
        return false;
    }
    be16_at(bundle, 6) as usize + be16_at(bundle, 4) as usize <= bundle.len()
}

#[tactic(auto, unfolding(crate::specs::Bundle::bundle_fits))]
fn bundle_fits(bundle: &[u8]) -> bool
    ensures { result ≡ bundle_fits bundle.now }
{
    if MOST < bundle.len() {
        return false;
    }
    if !list_lies(bundle) {
        return false;
    }
    packets_fit(
        bundle,
        be16_at(bundle, 2) as usize,
        be16_at(bundle, 0) as usize,
    )
}

// The list's bytes.
fn list_of<'a>(bundle: &'a [u8]) -> &'a [u8]
    requires { ListWithin bundle.now }
    ensures { result.now ≡ list_of bundle.now }
{
    let start = be16_at(bundle, 6) as usize;
    let end = start + be16_at(bundle, 4) as usize;
    &bundle[start..end]
}

// A bundle is well formed, or refused: 12, then 9, then 10.
#[tactic(auto, using(crate::proofs::Packets::list_within), unfolding(crate::specs::Bundle::check_bundle))]
pub fn check_bundle(bundle: &[u8]) -> Result<(), BundleRefusal>
    ensures { result ≡ check_bundle bundle.now }
{
    if !bundle_fits(bundle) {
        return Err(BundleRefusal::DoesNotFit);
    }
    check_list(list_of(bundle))?;
    Ok(())
}

// ---- the answers

// What is at a place of a bundle, which need not have passed its check, in any mode.
#[tactic(auto, using(crate::proofs::Packets::within), unfolding(crate::specs::Answers::packet_at_in, crate::specs::Answers::packet_lies))]
pub fn packet_at_in(bundle: &[u8], at: usize, mode: Mode) -> Option<PacketAt>
    ensures { result ≡ packet_at_in mode bundle.now at }
{
    if !list_lies(bundle) {
        return None;
    }
    if !packet_fits(bundle, at) {
        return None;
    }
    let peer = peer_of(be16_at(bundle, at));
    let start = at + BEFORE;
    let end = packet_end(bundle, at);
    let answer = answer_packet_in(&bundle[start..end], peer, list_of(bundle), mode);
    Some(PacketAt { answer, end })
}

// The same in the plain mode: a public function, which docs/ANSWERS.md names.
pub fn packet_at(bundle: &[u8], at: usize) -> Option<PacketAt>
    ensures { result ≡ packet_at bundle.now at }
{
    packet_at_in(bundle, at, Mode::PLAIN)
}
