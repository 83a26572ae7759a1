// The TCP part of a packet, which holds a whole header without its options: what the header's fields say.
ghost use Rattle.std.specs.Prelude.{◌≡◌, ◌+◌, ◌*◌, ◌≤◌, min, max, length};
ghost use Rattle.basis.specs.Bytes as bytes;
ghost use Rattle.rfc.specs.Rfc9293.{data_offset};
ghost use Rattle.syn_options.specs.Stops.{walked_of};
ghost use Rattle.flow.specs.Tcp.{quirks_of_headers, payload_class, observation_of};

use ip::IpFacts;
use numbers::{be16, be32, saturating_add, wide};
use observable::TcpObservation;
use quirks::QuirkSet;
use syn_options::OptionWalk;
use tcp::PayloadSize;
use tcp_header::{number_quirks, urgent_quirks};

// The bytes of a TCP header without options.
pub(crate) const TCP_HEADER: usize = 20;

#[derive(Clone, Copy)]
pub(crate) struct TcpPart<'a> {
    pub(crate) bytes: &'a [u8],
    ghost whole_header: { 20 ≤ length bytes.now },
}

impl TcpPart<'_> {
    // The four-byte number at a place of the header.
    #[tactic(auto, unfolding(basis::specs::Bytes::be16, basis::specs::Bytes::be32))]
    fn word(self, at: usize) -> u32
        requires { at + 4 ≤ 20 }
        ensures { result ≡ bytes.be32 self.entry.bytes.now at }
    {
        let tcp = self.bytes;
        be32(be16(tcp[at], tcp[at + 1]), be16(tcp[at + 2], tcp[at + 3]))
    }

    // The quirks that both headers show.
    pub(crate) fn shown_quirks(self, quirks: QuirkSet) -> QuirkSet
        ensures { result ≡ quirks_of_headers self.entry.bytes.now quirks }
    {
        let flags = self.bytes[13];
        let numbered = number_quirks(flags, self.word(4), self.word(8), quirks);
        urgent_quirks(flags, be16(self.bytes[18], self.bytes[19]), numbered)
    }

    // What the data offset says, in bytes.
    pub(crate) fn header_bytes(self) -> u16
        ensures { result ≡ 4 * data_offset self.entry.bytes.now }
    {
        4 * wide(self.bytes[12] / 16)
    }

    #[tactic(auto, unfolding(crate::specs::Tcp::payload_class))]
    fn payload_class(self) -> PayloadSize
        ensures { result ≡ payload_class self.entry.bytes.now }
    {
        if self.bytes.len() <= TCP_HEADER.max(self.header_bytes() as usize) {
            PayloadSize::Zero
        } else {
            PayloadSize::NonZero
        }
    }

    // Where the options end: at the data offset, clipped to the part, and nowhere before the header's end.
    pub(crate) fn options_end(self) -> usize
        ensures { result ≡ max 20 (min (4 * data_offset self.entry.bytes.now) (length self.entry.bytes.now)) }
    {
        (self.header_bytes() as usize)
            .min(self.bytes.len())
            .max(TCP_HEADER)
    }

    #[tactic(auto, unfolding(crate::specs::Tcp::observation_of, basis::specs::Bytes::be16))]
    pub(crate) fn observation(
        self,
        facts: IpFacts,
        walk: OptionWalk,
        peer_mss: Option<u16>,
    ) -> TcpObservation
        ensures { result ≡ observation_of facts self.entry.bytes.now (walked_of walk) peer_mss }
    {
        TcpObservation {
            version: facts.version,
            ittl: facts.ittl,
            olen: facts.olen,
            mss: walk.seen.mss,
            wsize: be16(self.bytes[14], self.bytes[15]),
            tot_hdr: saturating_add(facts.header_bytes, self.header_bytes()),
            wscale: walk.seen.wscale,
            olayout: walk.olayout,
            quirks: walk.seen.quirks,
            pclass: self.payload_class(),
            peer_mss,
            tos: facts.tos,
        }
    }
}
