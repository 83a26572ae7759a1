// What tools/benchmark counts, in an archive of its own; not part of the product.
#![tactic(auto)]

ghost use Rattle.std.specs.Prelude.{◌≡◌};
ghost use Rattle.flow.specs.Modes.{mode_of};
ghost use Rattle.counted.specs.Counted.{counted_reading, counted_reading_in, counted_kind, searched_code, counted_answer};
ghost use Rattle.witness.specs.Lined.{line_read};

use flow::{Mode, mode_of};
use found::{Found, Searched};
use packet_answer::peer_of;
use witness::written::{answer_number, observation_read, plain_packet};
use witness::{PlainLine, PlainPacket, witness_line};

// The reading of a packet in the plain mode, whole, as a struct that C can read; the window's multiplier, which a search computes, is
// left out.
#[tactic(auto, unfolding(crate::specs::Counted::counted_reading_in))]
pub fn counted_observe(packet: &[u8], peer: u16) -> PlainPacket
    ensures { result ≡ counted_reading packet.now peer }
{
    plain_packet(
        flow::read_packet_in(packet, peer_of(peer), Mode::PLAIN),
        None,
    )
}

// The reading in the plain mode, of which only the answer is handed on: what was read is left where it is.
#[tactic(auto, unfolding(crate::specs::Counted::counted_kind))]
pub fn counted_read(packet: &[u8], peer: u16) -> u8
    ensures { result ≡ counted_kind packet.now peer }
{
    answer_number(flow::read_packet_in(packet, peer_of(peer), Mode::PLAIN))
}

// The same as `counted_observe` in a mode that is given as for C.
#[tactic(auto, unfolding(crate::specs::Counted::counted_reading_in))]
pub fn counted_observe_in(packet: &[u8], peer: u16, bits: u8) -> PlainPacket
    ensures { result ≡ counted_reading_in (mode_of bits) packet.now peer }
{
    plain_packet(
        flow::read_packet_in(packet, peer_of(peer), mode_of(bits)),
        None,
    )
}

// What was found and how many records were examined, in one number.
fn searched_code(searched: Searched) -> u64
    ensures { result ≡ searched_code searched }
{
    let examined = 262144 * u64::from(searched.examined);
    match searched.found {
        Found::None => examined + 65536,
        Found::Exact(hit) => examined + 131072 + u64::from(hit.label),
        Found::Fuzzy(hit, _) => examined + 196608 + u64::from(hit.label),
    }
}

// From a packet to what the search of a checked list answers for it; of a packet without an observation, for the empty one.
#[tactic(auto, unfolding(crate::specs::Counted::counted_answer))]
pub fn counted_answer(packet: &[u8], peer: u16, list: &[u8]) -> u64
    ensures { result ≡ counted_answer packet.now peer list.now }
{
    let reading = flow::read_packet_in(packet, peer_of(peer), Mode::PLAIN);
    searched_code(search::search_checked(observation_read(reading), list))
}

// The reading of a signature line, whole, as a struct that C can read.
pub fn counted_line(line: &[u8]) -> PlainLine
    ensures { result ≡ line_read line.now }
{
    witness_line(line)
}
