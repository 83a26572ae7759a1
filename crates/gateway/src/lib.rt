// What a gateway in C or Rust links: each answer as a struct of sixteen bytes, and lines and lists in a buffer that it lends.
#![tactic(auto)]

ghost use Rattle.std.specs.Prelude.{◌≡◌};
ghost use Rattle.refusals.specs.Refusals.{packet_number, packet_value};
ghost use Rattle.siglist.specs.List.{check_list};
ghost use Rattle.flow.specs.Modes.{mode_of};
ghost use Rattle.packet_answer.specs.Packet.{peer_of, answer_of, answer_in};
ghost use Rattle.gateway.specs.Parts.{plain, valued, refused, generic_mark, marks_of, fuzzy, kind_number, searched_parts, packet_parts};
ghost use Rattle.gateway.specs.Parts.{refused_list, parts_of, gateway_answer, gateway_in, list_parts};
ghost use Rattle.text.specs.Written.{Writes};
ghost use Rattle.gateway.specs.Lines.{line_parts, refusal_parts, wrote_parts, seen_line};
ghost use Rattle.gateway.specs.Lines.{packet_line_in, raw_line, raw_line_in, record_parts};
ghost use Rattle.gateway.specs.Compiled.{compile_parts};

use compiled::compiled_parts;
use flow::{Kind, Mode, Reading, mode_of, read_packet_in};
use found::{Found, Hit, Searched};
use line_writer::{write_observation, write_record};
use list_compiler::compile_list;
use matching::FuzzyReason;
use observable::TcpObservation;
use packet_answer::{PacketAnswer, answer_packet_in, peer_of};
use refusals::{ListRefusal, PacketRefusal, Refusal, list_value, packet_value, refusal_number};
use siglist::check_list;

mod compiled;

// An answer for C: sixteen bytes, returned in two registers (specs/Parts.antt; include/termread.h has the same struct). What a later
// request fills is 0 until then. Kinds and refusals are numbers, and 0 stands for what is absent: the C interface.
#[repr(C)]
#[derive(Clone, Copy)]
pub struct TermreadResult {
    pub outcome: u8,
    pub kind: u8,
    pub refusal: u8,
    pub tolerated: u8,
    pub label: u16,
    pub number: u16,
    pub examined: u16,
    pub value: u16,
    pub added: u8,
    pub missing: u8,
    pub hops: u8,
    pub marks: u8,
}

// What compiling a list answers, sixteen bytes too: numbers, for the C interface.
#[repr(C)]
#[derive(Clone, Copy)]
pub struct TermreadCompiled {
    pub length: u32,
    pub line: u32,
    pub offset: u32,
    pub refusal: u32,
}

// ---- the fields, each by its name: no field of the C interface is filled by another answer's

// The bit of `marks` that says that the record is generic.
const GENERIC: u8 = 4;

fn plain(outcome: u8, kind: u8, label: u16, number: u16, examined: u16, marks: u8) -> TermreadResult
    ensures { result ≡ plain outcome kind label number examined marks }
{
    TermreadResult {
        outcome,
        kind,
        refusal: 0,
        tolerated: 0,
        label,
        number,
        examined,
        value: 0,
        added: 0,
        missing: 0,
        hops: 0,
        marks,
    }
}

fn valued(outcome: u8, kind: u8, refusal: u8, value: u16) -> TermreadResult
    ensures { result ≡ valued outcome kind refusal value }
{
    TermreadResult {
        outcome,
        kind,
        refusal,
        tolerated: 0,
        label: 0,
        number: 0,
        examined: 0,
        value,
        added: 0,
        missing: 0,
        hops: 0,
        marks: 0,
    }
}

fn refused(refusal: u8, value: u16) -> TermreadResult
    ensures { result ≡ refused refusal value }
{
    valued(5, 0, refusal, value)
}

fn generic_mark(generic: bool) -> u8
    ensures { result ≡ generic_mark generic }
{
    if generic { GENERIC } else { 0 }
}

fn marks_of(hops: Option<u8>, generic: bool) -> u8
    ensures { result ≡ marks_of hops generic }
{
    generic_mark(generic) + u8::from(hops.is_some())
}

fn fuzzy(kind: u8, hit: Hit, reason: FuzzyReason, examined: u16) -> TermreadResult
    ensures { result ≡ fuzzy kind hit reason examined }
{
    TermreadResult {
        outcome: 2,
        kind,
        refusal: 0,
        tolerated: 0,
        label: hit.label,
        number: hit.number,
        examined,
        value: 0,
        added: (reason.added.bits() % 256) as u8,
        missing: (reason.missing.bits() % 256) as u8,
        hops: reason.hops.unwrap_or(0),
        marks: marks_of(reason.hops, hit.generic),
    }
}

// A generic exact record leaves by a way of its own, so that on both ways the mark is a constant.
#[tactic(auto, unfolding(crate::specs::Parts::searched_parts))]
fn searched_parts(kind: u8, searched: Searched) -> TermreadResult
    ensures { result ≡ searched_parts kind searched }
{
    let Searched { found, examined } = searched;
    match found {
        Found::None => plain(3, kind, 0, 0, examined, 0),
        Found::Exact(hit) => {
            if hit.generic {
                return plain(1, kind, hit.label, hit.number, examined, GENERIC);
            }
            plain(1, kind, hit.label, hit.number, examined, 0)
        }
        Found::Fuzzy(hit, reason) => fuzzy(kind, hit, reason, examined),
    }
}

fn refused_packet(refusal: PacketRefusal) -> TermreadResult
    ensures { result ≡ refused (packet_number refusal) (packet_value refusal) }
{
    refused(
        refusal_number(refusal.into()),
        u16::from(packet_value(refusal)),
    )
}

fn kind_number(kind: Kind) -> u8
    ensures { result ≡ kind_number kind }
{
    match kind {
        Kind::Syn => 1,
        Kind::SynAck => 2,
    }
}

#[tactic(auto, unfolding(crate::specs::Parts::packet_parts))]
fn packet_parts(answer: Result<PacketAnswer, PacketRefusal>) -> TermreadResult
    ensures { result ≡ packet_parts answer }
{
    match answer {
        Ok(PacketAnswer::Opening(kind, searched)) => searched_parts(kind_number(kind), searched),
        Ok(PacketAnswer::Nothing) => plain(4, 0, 0, 0, 0, 0),
        Err(refusal) => refused_packet(refusal),
    }
}

#[tactic(auto, unfolding(crate::specs::Parts::refused_list))]
fn refused_list(refusal: ListRefusal) -> TermreadResult
    ensures { result ≡ refused_list refusal }
{
    refused(
        refusal_number(refusal.into()),
        (list_value(refusal) % 65536) as u16,
    )
}

// The answer of a packet against a list that was checked, in any mode.
fn answered(packet: &[u8], peer: u16, list: &[u8], mode: Mode) -> TermreadResult
    ensures { result ≡ packet_parts (answer_in mode packet.now (peer_of peer) list.now) }
{
    packet_parts(answer_packet_in(packet, peer_of(peer), list, mode))
}

// The answer of a packet against a list that was not, in any mode: refusals 9 and 10 come before the packet's.
#[tactic(auto, unfolding(crate::specs::Parts::gateway_in))]
fn answered_or_refused(packet: &[u8], peer: u16, list: &[u8], mode: Mode) -> TermreadResult
    ensures { result ≡ parts_of (gateway_in mode packet.now peer list.now) }
{
    match check_list(list) {
        Ok(()) => answered(packet, peer, list, mode),
        Err(refusal) => refused_list(refusal),
    }
}

// ---- lines

// A line was written.
fn line_parts(kind: u8, size: usize) -> TermreadResult
    ensures { result ≡ line_parts kind size }
{
    valued(6, kind, 0, (size % 65536) as u16)
}

#[tactic(auto, unfolding(crate::specs::Lines::refusal_parts))]
fn refusal_parts(refusal: Refusal) -> TermreadResult
    ensures { result ≡ refusal_parts refusal }
{
    match refusal {
        Refusal::Packet(why) => refused_packet(why),
        Refusal::List(why) => refused_list(why),
        _ => refused(refusal_number(refusal), 0),
    }
}

#[tactic(auto, unfolding(crate::specs::Lines::wrote_parts))]
fn wrote_parts(kind: u8, wrote: Result<usize, Refusal>) -> TermreadResult
    ensures { result ≡ wrote_parts kind wrote }
{
    match wrote {
        Ok(size) => line_parts(kind, size),
        Err(refusal) => refusal_parts(refusal),
    }
}

// The raw line of what was seen.
fn line_seen(buffer: &mut [u8], kind: u8, o: TcpObservation) -> TermreadResult
    ensures { Writes buffer.old (seen_line kind o) result buffer.new }
{
    wrote_parts(kind, write_observation(buffer, o))
}

// The raw line of a packet, in any mode.
#[tactic(auto, unfolding(crate::specs::Lines::packet_line_in, text::specs::Written::written))]
fn packet_line(buffer: &mut [u8], packet: &[u8], peer: u16, mode: Mode) -> TermreadResult
    ensures { Writes buffer.old (packet_line_in mode packet.now peer) result buffer.new }
{
    match read_packet_in(packet, peer_of(peer), mode) {
        Ok(Reading::Opening(kind, observation)) => line_seen(
            buffer,
            kind_number(kind),
            observation,
        ),
        Ok(Reading::Nothing) => plain(4, 0, 0, 0, 0, 0),
        Err(refusal) => refused_packet(refusal),
    }
}

// ---- what is exported

// Whether a list is well formed: outcome 0, or its refusal.
#[tactic(auto, unfolding(crate::specs::Parts::list_parts))]
pub fn termread_check_list(list: &[u8]) -> TermreadResult
    ensures { result ≡ list_parts (check_list list.now) }
{
    match check_list(list) {
        Ok(()) => plain(0, 0, 0, 0, 0, 0),
        Err(refusal) => refused_list(refusal),
    }
}

// The answer of a packet against a list that was checked: what is not a well-formed record of it does not fit.
#[tactic(auto, using(crate::proofs::PlainMode::plain_answer))]
pub fn termread_answer_checked(packet: &[u8], peer: u16, list: &[u8]) -> TermreadResult
    ensures { result ≡ packet_parts (answer_of packet.now (peer_of peer) list.now) }
{
    answered(packet, peer, list, Mode::PLAIN)
}

// The answer of a packet against a list that was not checked: refusals 9 and 10 come before the packet's.
#[tactic(auto, using(crate::proofs::PlainMode::plain_gateway))]
pub fn termread_answer(packet: &[u8], peer: u16, list: &[u8]) -> TermreadResult
    ensures { result ≡ parts_of (gateway_answer packet.now peer list.now) }
{
    answered_or_refused(packet, peer, list, Mode::PLAIN)
}

// Both in any mode, as one number: bit 0 is strict, and the other bits are not read. They stand beside the two above, as does the raw line
// in any mode beside the plain one, since C calls each by its name (the C interface).
pub fn termread_answer_checked_in(packet: &[u8], peer: u16, list: &[u8], bits: u8) -> TermreadResult
    ensures { result ≡ packet_parts (answer_in (mode_of bits) packet.now (peer_of peer) list.now) }
{
    answered(packet, peer, list, mode_of(bits))
}

pub fn termread_answer_in(packet: &[u8], peer: u16, list: &[u8], bits: u8) -> TermreadResult
    ensures { result ≡ parts_of (gateway_in (mode_of bits) packet.now peer list.now) }
{
    answered_or_refused(packet, peer, list, mode_of(bits))
}

// The raw line of a packet, written from the buffer's start: outcome 6 with its length, nothing, or a refusal, 15 the last. Whatever is
// answered, bytes past the line are as they were.
#[tactic(auto, using(crate::proofs::PlainMode::plain_line))]
pub fn termread_raw_line(buffer: &mut [u8], packet: &[u8], peer: u16) -> TermreadResult
    ensures { Writes buffer.old (raw_line packet.now peer) result buffer.new }
{
    packet_line(buffer, packet, peer, Mode::PLAIN)
}

// The same in any mode.
pub fn termread_raw_line_in(buffer: &mut [u8], packet: &[u8], peer: u16, bits: u8) -> TermreadResult
    ensures { Writes buffer.old (raw_line_in bits packet.now peer) result buffer.new }
{
    packet_line(buffer, packet, peer, mode_of(bits))
}

// The line of record `index` of a list, in the same way: refusals 9, 10, 23 and 15.
#[tactic(auto, unfolding(crate::specs::Lines::record_parts))]
pub fn termread_record_line(buffer: &mut [u8], list: &[u8], index: usize) -> TermreadResult
    ensures { Writes buffer.old (record_parts list.now index) result buffer.new }
{
    wrote_parts(0, write_record(buffer, list, index))
}

// A keeper's file compiled into a list, from the buffer's start on: its length, or a refusal, 13, 24, 25 or 15, with the line.
#[tactic(auto, unfolding(crate::specs::Compiled::compile_parts))]
pub fn termread_compile_list(buffer: &mut [u8], file: &[u8]) -> TermreadCompiled
    ensures { Writes buffer.old (compile_parts file.now) result buffer.new }
{
    compiled_parts(compile_list(buffer, file))
}
