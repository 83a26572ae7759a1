// flow.rs: from a lent packet to an observation. The IP stage hands on facts and the TCP part; the TCP stage sees nothing else.
#![tactic(auto)]

ghost use Rattle.std.specs.Prelude.{◌≡◌, cond, ◌&&◌, ◌||◌, ltb};
ghost use Rattle.flow.specs.Modes.{mode_of, stop_of, observation_in, read_in};
ghost use Rattle.flow.specs.Reading.{read_packet};
ghost use Rattle.flow.specs.Tcp.{known_peer};

use ip::{IpFacts, read_ip};
use observable::TcpObservation;
use part::{TCP_HEADER, TcpPart};
use refusals::PacketRefusal;
use syn_options::{StopBefore, walk_options};
use tcp_header::{is_valid, tcp_type};

mod part;

// Which of the two openings of a connection.
#[derive(Clone, Copy)]
pub enum Kind {
    Syn,
    SynAck,
}

// What is read of a packet that is not refused. The kind stands beside what was observed: with a variant for each kind the search stands
// in two places, tried: 17 to 29 instructions more for an answer (docs/DECISIONS.md, 74).
#[derive(Clone, Copy)]
pub enum Reading {
    Opening(Kind, TcpObservation),
    // Valid flags that are neither SYN nor SYN+ACK.
    Nothing,
}

// How a packet is read. The IP stage is document 01's in every mode.
#[derive(Clone, Copy)]
pub struct Mode {
    // The TCP stage: a header that contradicts itself is set aside (refusal 14) instead of being read on.
    pub strict: bool,
}

impl Mode {
    // Document 01's reader.
    pub const PLAIN: Self = Self { strict: false };
}

// A mode as one number, for callers in C, who have no other: bit 0 is strict; the other bits are not read.
pub fn mode_of(bits: u8) -> Mode
    ensures { result ≡ mode_of bits }
{
    Mode {
        strict: bits % 2 == 1,
    }
}

// The masked types: SYN, and SYN with ACK.
const SYN: u8 = 2;

const SYN_ACK: u8 = 18;

// The options that the mode's walk stops before.
fn stop_of(mode: Mode) -> StopBefore
    ensures { result ≡ stop_of mode }
{
    StopBefore {
        past: mode.strict,
        short: mode.strict,
    }
}

// The observation of a SYN or SYN+ACK: the options are a further part.
fn observe(
    facts: IpFacts,
    tcp: TcpPart,
    syn: bool,
    peer_mss: Option<u16>,
    mode: Mode,
) -> TcpObservation
    ensures { result ≡ observation_in mode facts tcp.entry.bytes.now syn (cond syn None (known_peer peer_mss)) }
{
    let end = tcp.options_end();
    let quirks = tcp.shown_quirks(facts.quirks);
    let walk = walk_options(&tcp.bytes[20..end], stop_of(mode), syn, quirks);
    tcp.observation(facts, walk, peer_taken(syn, peer_mss))
}

// Only a SYN+ACK's observation takes the peer's MSS; a zero one counts as absent.
#[tactic(auto, unfolding(crate::specs::Tcp::known_peer))]
fn peer_taken(syn: bool, peer_mss: Option<u16>) -> Option<u16>
    ensures { result ≡ cond syn None (known_peer peer_mss) }
{
    match peer_mss {
        Some(size) if !syn && size != 0 => Some(size),
        _ => None,
    }
}

// Whether the mode sets a header of these bytes aside: its data offset points into the fixed header, or past the part.
fn sets_aside(mode: Mode, header: usize, part: usize) -> bool
    ensures { result ≡ mode.strict && (ltb header 20 || ltb part header) }
{
    mode.strict && (header < TCP_HEADER || part < header)
}

// From a lent packet and the peer's MSS to an observation, nothing, or a refusal, in any mode: the IP stage, then the TCP stage on its
// part. Each answer leaves by a way of its own, and the header's length is asked for before the mode (docs/DECISIONS.md, 74).
#[tactic(auto, using(ip::proofs::Ip::tcp_part_lies, crate::proofs::Stage::part_long, crate::proofs::Stage::refused_14))]
pub fn read_packet_in(
    packet: &[u8],
    peer_mss: Option<u16>,
    mode: Mode,
) -> Result<Reading, PacketRefusal>
    ensures { result ≡ read_in mode packet.now peer_mss }
{
    let facts = read_ip(packet)?;
    let tcp = TcpPart {
        bytes: &packet[facts.start..facts.end],
    };
    let header = tcp.header_bytes() as usize;
    let flags = tcp.bytes[13];
    let masked = tcp_type(flags);
    let syn = masked == SYN;
    if syn | (masked == SYN_ACK) {
        if sets_aside(mode, header, tcp.bytes.len()) {
            return Err(PacketRefusal::DataOffset);
        }
        let observation = observe(facts, tcp, syn, peer_mss, mode);
        let kind = if syn { Kind::Syn } else { Kind::SynAck };
        return Ok(Reading::Opening(kind, observation));
    }
    if sets_aside(mode, header, tcp.bytes.len()) {
        return Err(PacketRefusal::DataOffset);
    }
    if is_valid(flags) {
        return Ok(Reading::Nothing);
    }
    Err(PacketRefusal::InvalidTcpFlags(flags))
}

// The same in the plain mode, which is document 01's: a public function, which the documents name.
#[tactic(auto, unfolding(crate::specs::Reading::read_packet, crate::specs::Modes::read_in))]
pub fn read_packet(packet: &[u8], peer_mss: Option<u16>) -> Result<Reading, PacketRefusal>
    ensures { result ≡ read_packet packet.now peer_mss }
{
    read_packet_in(packet, peer_mss, Mode::PLAIN)
}
