// What C links of the library `gateway`: each export calls the function of its name, and promises what it promises.

#![tactic(auto)]

ghost use Rattle.std.specs.Prelude.{◌≡◌};
ghost use Rattle.siglist.specs.List.{check_list};
ghost use Rattle.flow.specs.Modes.{mode_of};
ghost use Rattle.packet_answer.specs.Packet.{peer_of, answer_of, answer_in};
ghost use Rattle.gateway.specs.Parts.{packet_parts};
ghost use Rattle.gateway.specs.Parts.{parts_of, gateway_answer, gateway_in, list_parts};
ghost use Rattle.text.specs.Written.{Writes};
ghost use Rattle.gateway.specs.Lines.{raw_line, raw_line_in, record_parts};
ghost use Rattle.gateway.specs.Compiled.{compile_parts};

use gateway::{TermreadCompiled, TermreadResult};

// Whether a list is well formed: outcome 0, or its refusal.
#[unsafe(no_mangle)]
pub extern "C" fn termread_check_list(list: &[u8]) -> TermreadResult
    ensures { result ≡ list_parts (check_list list.now) }
{
    gateway::termread_check_list(list)
}

// The answer of a packet against a list that was checked: what is not a well-formed record of it does not fit.
#[unsafe(no_mangle)]
pub extern "C" fn termread_answer_checked(packet: &[u8], peer: u16, list: &[u8]) -> TermreadResult
    ensures { result ≡ packet_parts (answer_of packet.now (peer_of peer) list.now) }
{
    gateway::termread_answer_checked(packet, peer, list)
}

// The answer of a packet against a list that was not checked: refusals 9 and 10 come before the packet's.
#[unsafe(no_mangle)]
pub extern "C" fn termread_answer(packet: &[u8], peer: u16, list: &[u8]) -> TermreadResult
    ensures { result ≡ parts_of (gateway_answer packet.now peer list.now) }
{
    gateway::termread_answer(packet, peer, list)
}

// Both in any mode, as one number: bit 0 is strict, and the other bits are not read.
#[unsafe(no_mangle)]
pub extern "C" fn termread_answer_checked_in(
    packet: &[u8],
    peer: u16,
    list: &[u8],
    bits: u8,
) -> TermreadResult
    ensures { result ≡ packet_parts (answer_in (mode_of bits) packet.now (peer_of peer) list.now) }
{
    gateway::termread_answer_checked_in(packet, peer, list, bits)
}

#[unsafe(no_mangle)]
pub extern "C" fn termread_answer_in(
    packet: &[u8],
    peer: u16,
    list: &[u8],
    bits: u8,
) -> TermreadResult
    ensures { result ≡ parts_of (gateway_in (mode_of bits) packet.now peer list.now) }
{
    gateway::termread_answer_in(packet, peer, list, bits)
}

// The raw line of a packet, written from the buffer's start: outcome 6 with its length, nothing, or a refusal, 15 the last. Whatever is
// answered, bytes past the line are as they were.
#[unsafe(no_mangle)]
pub extern "C" fn termread_raw_line(buffer: &mut [u8], packet: &[u8], peer: u16) -> TermreadResult
    ensures { Writes buffer.old (raw_line packet.now peer) result buffer.new }
{
    gateway::termread_raw_line(buffer, packet, peer)
}

// The same in any mode.
#[unsafe(no_mangle)]
pub extern "C" fn termread_raw_line_in(
    buffer: &mut [u8],
    packet: &[u8],
    peer: u16,
    bits: u8,
) -> TermreadResult
    ensures { Writes buffer.old (raw_line_in bits packet.now peer) result buffer.new }
{
    gateway::termread_raw_line_in(buffer, packet, peer, bits)
}

// The line of record `index` of a list, in the same way: refusals 9, 10, 23 and 15.
#[unsafe(no_mangle)]
pub extern "C" fn termread_record_line(
    buffer: &mut [u8],
    list: &[u8],
    index: usize,
) -> TermreadResult
    ensures { Writes buffer.old (record_parts list.now index) result buffer.new }
{
    gateway::termread_record_line(buffer, list, index)
}

// A keeper's file compiled into a list, from the buffer's start on: its length, or a refusal, 13, 24, 25 or 15, with the line.
#[unsafe(no_mangle)]
pub extern "C" fn termread_compile_list(buffer: &mut [u8], file: &[u8]) -> TermreadCompiled
    ensures { Writes buffer.old (compile_parts file.now) result buffer.new }
{
    gateway::termread_compile_list(buffer, file)
}
