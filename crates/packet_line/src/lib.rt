// A packet of a bundle: what is read of it; and its line, put into a buffer that is lent: its answer, and what it showed.
#![tactic(auto)]

ghost use Rattle.std.specs.Prelude.{◌≡◌};
ghost use Rattle.text.specs.Written.{Put};
ghost use Rattle.packet_line.specs.PacketLine.{seen_text, shown_raw, packet_line, reading_at};

use flow::{Reading, read_packet};
use line_writer::write_observation;
use numbers::be16_at;
use observable::TcpObservation;
use packet_answer::{PacketAnswer, peer_of};
use refusals::PacketRefusal;
use report::lines::put_answer;
use text::{put_byte, put_word};

// The longest raw line of an observation.
const RAW: usize = 432;

// The raw line of an observation.
fn put_seen(buffer: &mut [u8], at: usize, observation: TcpObservation) -> usize
    ensures { Put buffer.old at (seen_text observation) result buffer.new }
{
    let mut line = [0u8; RAW];
    match write_observation(&mut line, observation) {
        Ok(size) => put_word(buffer, at, &line[0..size]),
        Err(_) => at,
    }
}

// What a reading shows: the raw line of its observation, or `-`.
fn put_raw(buffer: &mut [u8], at: usize, reading: Result<Reading, PacketRefusal>) -> usize
    ensures { Put buffer.old at (shown_raw reading) result buffer.new }
{
    match reading {
        Ok(Reading::Opening(_, observation)) => put_seen(buffer, at, observation),
        _ => put_byte(buffer, at, b'-'),
    }
}

// The line of a packet that was answered and read so.
pub fn put_packet(
    buffer: &mut [u8],
    at: usize,
    answer: Result<PacketAnswer, PacketRefusal>,
    reading: Result<Reading, PacketRefusal>,
) -> usize
    ensures { Put buffer.old at (packet_line answer reading) result buffer.new }
{
    let blank = put_answer(buffer, at, answer);
    let next = put_byte(buffer, blank, b' ');
    let behind = put_raw(buffer, next, reading);
    put_byte(buffer, behind, b'\n')
}

// What stands before a packet's bytes: its peer's MSS and its length.
const BEFORE: usize = 4;

// What is read of the packet that starts and ends at these places of a bundle; of one that does not lie within it, what is read of nothing.
#[tactic(auto, unfolding(crate::specs::PacketLine::reading_at))]
pub fn reading_at(bundle: &[u8], at: usize, end: usize) -> Result<Reading, PacketRefusal>
    ensures { result ≡ reading_at bundle.now at end }
{
    if bundle.len() < end || end < BEFORE || end - BEFORE < at {
        return read_packet(&[], None);
    }
    let start = at + BEFORE;
    read_packet(&bundle[start..end], peer_of(be16_at(bundle, at)))
}
