// The IP stage of flow.rs: from a lent packet to the facts of its IP header and the place of its TCP part, or a refusal.
#![tactic(auto)]

ghost use Rattle.std.specs.Prelude.{◌≡◌, ◌||◌, ◌+◌, ◌*◌, ◌/◌, ◌%◌, ◌≤◌, eqb, ltb, length};
ghost use Rattle.ip.specs.Ip.{ipv4_quirks, ipv4_facts, read_ipv4, ipv6_quirks, ipv6_facts, read_ipv6, read_ip};

use ip_options::{calculate_ipv4_length, calculate_ipv6_length};
use numbers::{be16_at, be32, least, wide};
use quirks::{Quirk, QuirkSet};
use refusals::PacketRefusal;
use tcp::IpVersion;
use ttl::{Ttl, calculate_ttl};

// What the IP header says, and where the TCP part lies.
#[derive(Clone, Copy)]
pub struct IpFacts {
    pub version: IpVersion,
    pub ittl: Ttl,
    pub tos: u8,
    pub olen: u8,
    pub header_bytes: u16,
    pub quirks: QuirkSet,
    pub start: usize,
    pub end: usize,
}

// The protocol number of TCP.
const TCP: u8 = 6;

// The bytes of each header without options.
const IPV4_HEADER: usize = 20;

const IPV6_HEADER: usize = 40;

const TCP_HEADER: usize = 20;

// ---- the IP stage

// A fragment offset above 0, or more fragments to come, of the two bytes that hold both.
#[tactic(auto, using(crate::proofs::Fragments::fragment_high, crate::proofs::Fragments::fragment_low))]
fn is_fragment(high: u8, low: u8) -> bool
    ensures { result ≡ ltb 0 (high % 32 * 256 + low) || eqb (high / 32 % 2) 1 }
{
    high % 64 != 0 || low != 0
}

#[tactic(auto, using(quirks::proofs::Named::empty_bits), unfolding(crate::specs::Ip::ipv4_quirks))]
fn ipv4_quirks(ecn: u8, reserved: u8, df: u8, identification: u16) -> QuirkSet
    ensures { result ≡ ipv4_quirks ecn reserved df identification }
{
    QuirkSet::EMPTY
        .add_if(ecn != 0, Quirk::Ecn)
        .add_if(reserved == 1, Quirk::MustBeZero)
        .add_if(df == 1, Quirk::Df)
        .add_if((df == 1) & (identification != 0), Quirk::NonZeroID)
        .add_if((df == 0) & (identification == 0), Quirk::ZeroID)
}

#[tactic(auto, unfolding(crate::specs::Ip::ipv4_facts))]
fn ipv4_facts(packet: &[u8], start: usize, end: usize) -> IpFacts
    requires { 20 ≤ length packet.now }
    ensures { result ≡ ipv4_facts packet.now start end }
{
    let class = packet[1];
    let fields = packet[6];
    let identification = be16_at(packet, 4);
    IpFacts {
        version: IpVersion::V4,
        ittl: calculate_ttl(packet[8]),
        tos: class / 4,
        olen: calculate_ipv4_length(packet),
        header_bytes: 4 * wide(packet[0] % 16),
        quirks: ipv4_quirks(class % 4, fields / 128, fields / 64 % 2, identification),
        start,
        end,
    }
}

fn process_tcp_ipv4(packet: &[u8]) -> Result<IpFacts, PacketRefusal>
    ensures { result ≡ read_ipv4 packet.now }
{
    if packet.len() < IPV4_HEADER {
        return Err(PacketRefusal::TooShort);
    }
    let ihl = packet[0] % 16;
    if ihl < 5 {
        return Err(PacketRefusal::HeaderLength);
    }
    if packet[9] != TCP {
        return Err(PacketRefusal::UnsupportedProtocol);
    }
    if is_fragment(packet[6], packet[7]) {
        return Err(PacketRefusal::Fragment);
    }
    let start = 4 * (ihl as usize);
    let end = least(be16_at(packet, 2) as usize, packet.len());
    if end < start + TCP_HEADER {
        return Err(PacketRefusal::TcpTooShort);
    }
    Ok(ipv4_facts(packet, start, end))
}

#[tactic(auto, using(quirks::proofs::Named::empty_bits), unfolding(crate::specs::Ip::ipv6_quirks))]
fn ipv6_quirks(flow_label: u32, ecn: u8) -> QuirkSet
    ensures { result ≡ ipv6_quirks flow_label ecn }
{
    QuirkSet::EMPTY
        .add_if(flow_label != 0, Quirk::FlowID)
        .add_if(ecn != 0, Quirk::Ecn)
}

#[tactic(auto, unfolding(crate::specs::Ip::ipv6_facts))]
fn ipv6_facts(packet: &[u8], end: usize) -> IpFacts
    requires { 40 ≤ length packet.now }
    ensures { result ≡ ipv6_facts packet.now end }
{
    let second = packet[1];
    let flow_label = be32(wide(second % 16), be16_at(packet, 2));
    let class = packet[0] % 16 * 16 + second / 16;
    IpFacts {
        version: IpVersion::V6,
        ittl: calculate_ttl(packet[7]),
        tos: class / 4,
        olen: calculate_ipv6_length(packet),
        header_bytes: 40,
        quirks: ipv6_quirks(flow_label, class % 4),
        start: IPV6_HEADER,
        end,
    }
}

fn process_tcp_ipv6(packet: &[u8]) -> Result<IpFacts, PacketRefusal>
    ensures { result ≡ read_ipv6 packet.now }
{
    if packet.len() < IPV6_HEADER {
        return Err(PacketRefusal::TooShort);
    }
    if packet[6] != TCP {
        return Err(PacketRefusal::UnsupportedProtocol);
    }
    let end = least(IPV6_HEADER + be16_at(packet, 4) as usize, packet.len());
    if end < IPV6_HEADER + TCP_HEADER {
        return Err(PacketRefusal::TcpTooShort);
    }
    Ok(ipv6_facts(packet, end))
}

// The choice by version nibble.
#[tactic(auto, unfolding(crate::specs::Ip::read_ip))]
pub fn read_ip(packet: &[u8]) -> Result<IpFacts, PacketRefusal>
    ensures { result ≡ read_ip packet.now }
{
    if packet.len() == 0 {
        return Err(PacketRefusal::Version);
    }
    let version = packet[0] / 16;
    if version == 4 {
        return process_tcp_ipv4(packet);
    }
    if version == 6 {
        return process_tcp_ipv6(packet);
    }
    Err(PacketRefusal::Version)
}
