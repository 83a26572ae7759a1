// flow.rs: what the numbers of a TCP header say, its type, whether its flags are valid, and the quirks that they show.
// Tests are joined by `&` and `|`, which take no branch.
#![tactic(auto)]

ghost use Rattle.std.specs.Prelude.{◌≡◌, not};
ghost use Rattle.tcp_header.specs.Flags.{masked_type, flags_invalid};
ghost use Rattle.tcp_header.specs.HeaderQuirks.{number_quirks, urgent_quirks};

use quirks::{Quirk, QuirkSet};

// The type: the flags masked to SYN, ACK, FIN and RST.
pub fn tcp_type(flags: u8) -> u8
    ensures { result ≡ masked_type flags }
{
    flags % 8 + flags / 16 % 2 * 16
}

// Not SYN with FIN or RST, nor FIN with RST, nor none of SYN, ACK, FIN and RST: one of FIN, SYN and RST, with or without ACK, or ACK.
pub fn is_valid(flags: u8) -> bool
    ensures { result ≡ not (flags_invalid flags) }
{
    let masked = tcp_type(flags);
    (masked == 1)
        | (masked == 2)
        | (masked == 4)
        | (masked == 16)
        | (masked == 17)
        | (masked == 18)
        | (masked == 20)
}

// Those of the flags, the sequence number and the acknowledgment number.
pub fn number_quirks(flags: u8, sequence: u32, acknowledgment: u32, quirks: QuirkSet) -> QuirkSet
    ensures { result ≡ number_quirks flags sequence acknowledgment quirks }
{
    let rst = flags / 4 % 2 == 1;
    let ack = flags / 16 % 2 == 1;
    quirks
        .add_if((flags / 64 % 2 == 1) | (flags / 128 % 2 == 1), Quirk::Ecn)
        .add_if(sequence == 0, Quirk::SeqNumZero)
        .add_if(ack & (acknowledgment == 0), Quirk::AckNumZero)
        .add_if(!ack & (acknowledgment != 0) & !rst, Quirk::AckNumNonZero)
}

// Those of the urgent pointer, and PSH.
pub fn urgent_quirks(flags: u8, urgent: u16, quirks: QuirkSet) -> QuirkSet
    ensures { result ≡ urgent_quirks flags urgent quirks }
{
    let urg = flags / 32 % 2 == 1;
    quirks
        .add_if(urg, Quirk::Urg)
        .add_if(!urg & (urgent != 0), Quirk::NonZeroURG)
        .add_if(flags / 8 % 2 == 1, Quirk::Push)
}
