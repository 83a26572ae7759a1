// The answer of a packet: what its search answers, nothing, or a refusal. Added by the port.
#![tactic(auto)]

ghost use Rattle.std.specs.Prelude.{◌≡◌};
ghost use Rattle.packet_answer.specs.Packet.{peer_of, answer_of, answer_in};

use flow::{Kind, Mode, Reading, read_packet_in};
use found::Searched;
use refusals::PacketRefusal;
use search::search_checked;

// The answer of a packet that is not refused: what its search answers, or nothing. The kind stands beside, as in what was read.
#[derive(Clone, Copy)]
pub enum PacketAnswer {
    Opening(Kind, Searched),
    Nothing,
}

// A peer's MSS of 0 is absent.
#[tactic(auto, unfolding(crate::specs::Packet::peer_of))]
pub fn peer_of(number: u16) -> Option<u16>
    ensures { result ≡ peer_of number }
{
    match number {
        0 => None,
        present => Some(present),
    }
}

// The answer of a packet, in any mode, against a list that was checked: what is not a well-formed record of the list does not fit. The
// refusals are 1 to 7 and 14. One call searches for both kinds, and only they have their observation copied (docs/DECISIONS.md, 74).
#[tactic(auto, unfolding(crate::specs::Packet::answer_in))]
pub fn answer_packet_in(
    packet: &[u8],
    peer: Option<u16>,
    list: &[u8],
    mode: Mode,
) -> Result<PacketAnswer, PacketRefusal>
    ensures { result ≡ answer_in mode packet.now peer list.now }
{
    match read_packet_in(packet, peer, mode)? {
        Reading::Opening(kind, observation) => Ok(PacketAnswer::Opening(
            kind,
            search_checked(observation, list),
        )),
        Reading::Nothing => Ok(PacketAnswer::Nothing),
    }
}

// The same in the plain mode: a public function, which docs/HOUSE.md names.
pub fn answer_packet(
    packet: &[u8],
    peer: Option<u16>,
    list: &[u8],
) -> Result<PacketAnswer, PacketRefusal>
    ensures { result ≡ answer_of packet.now peer list.now }
{
    answer_packet_in(packet, peer, list, Mode::PLAIN)
}
