// What tools/benchmark links of the library `counted`: each export calls the function of its name, and promises what it promises.

#![tactic(auto)]

ghost use Rattle.std.specs.Prelude.{◌≡◌};
ghost use Rattle.flow.specs.Modes.{mode_of};
ghost use Rattle.counted.specs.Counted.{counted_reading, counted_reading_in, counted_kind, counted_answer};
ghost use Rattle.witness.specs.Lined.{line_read};

use witness::{PlainLine, PlainPacket};

// The reading of a packet in the plain mode, whole, as a struct that C can read; the window's multiplier, which a search computes, is
// left out.
#[unsafe(no_mangle)]
pub extern "C" fn counted_observe(packet: &[u8], peer: u16) -> PlainPacket
    ensures { result ≡ counted_reading packet.now peer }
{
    counted::counted_observe(packet, peer)
}

// The reading in the plain mode, of which only the answer is handed on: what was read is left where it is.
#[unsafe(no_mangle)]
pub extern "C" fn counted_read(packet: &[u8], peer: u16) -> u8
    ensures { result ≡ counted_kind packet.now peer }
{
    counted::counted_read(packet, peer)
}

// The same as `counted_observe` in a mode that is given as for C.
#[unsafe(no_mangle)]
pub extern "C" fn counted_observe_in(packet: &[u8], peer: u16, bits: u8) -> PlainPacket
    ensures { result ≡ counted_reading_in (mode_of bits) packet.now peer }
{
    counted::counted_observe_in(packet, peer, bits)
}

// From a packet to what the search of a checked list answers for it.
#[unsafe(no_mangle)]
pub extern "C" fn counted_answer(packet: &[u8], peer: u16, list: &[u8]) -> u64
    ensures { result ≡ counted_answer packet.now peer list.now }
{
    counted::counted_answer(packet, peer, list)
}

// The reading of a signature line, whole, as a struct that C can read.
#[unsafe(no_mangle)]
pub extern "C" fn counted_line(line: &[u8]) -> PlainLine
    ensures { result ≡ line_read line.now }
{
    counted::counted_line(line)
}
