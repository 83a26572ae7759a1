// ip_options.rs: the length of IPv4 options and of IPv6 extension headers. The original takes pnet's views of a packet; here a
// packet is lent as bytes, and the views' rules are those of document 01.
#![tactic(auto)]

ghost use Rattle.std.specs.Prelude.{◌≡◌, ◌+◌, ◌*◌, ◌%◌, length};
ghost use Rattle.rfc.specs.Rfc8200.{payload};
ghost use Rattle.ip_options.specs.IpOptions.{ipv4_option_length, ipv6_extension_length};

use numbers::{be16, least};

// Protocol numbers.
const TCP: u8 = 6;

const IPV6_FRAG: u8 = 44;

// The bytes of an IPv6 header.
const IPV6_HEADER: usize = 40;

// The bytes of an IPv4 header's options: four for each word above five.
#[tactic(auto, using(crate::proofs::Laws::v4_empty), unfolding(crate::specs::IpOptions::ipv4_option_length))]
pub fn calculate_ipv4_length(packet: &[u8]) -> u8
    ensures { result ≡ ipv4_option_length packet.now }
{
    if packet.len() == 0 {
        return 0;
    }
    (packet[0] % 16).saturating_sub(5) * 4
}

// The bytes of the first IPv6 extension header by its own length byte, modulo 256.
pub fn calculate_ipv6_length(packet: &[u8]) -> u8
    ensures { result ≡ ipv6_extension_length packet.now }
{
    let size = payload_size(packet);
    if size == 0 {
        return 0;
    }
    let next_header = packet[6];
    if next_header == TCP {
        return 0;
    }
    if next_header == IPV6_FRAG {
        return 8;
    }
    if size < 2 {
        return 0;
    }
    eights(packet[41])
}

// The bytes of the IPv6 payload: what the header says, and never past the slice.
#[tactic(auto, using(crate::proofs::Laws::payload_size_lem), unfolding(basis::specs::Bytes::be16))]
fn payload_size(packet: &[u8]) -> usize
    ensures { result ≡ length (payload packet.now) }
{
    if packet.len() <= IPV6_HEADER {
        return 0;
    }
    least(
        be16(packet[4], packet[5]) as usize,
        packet.len() - IPV6_HEADER,
    )
}

// A length in units of eight bytes, the first of which is not counted, cut to a byte.
fn eights(length: u8) -> u8
    ensures { result ≡ (length + 1) * 8 % 256 }
{
    (((length as u16) + 1) * 8 % 256) as u8
}
