// What C drivers link of the library `witness`: each export calls the function of its name, and promises what it promises.

#![tactic(auto)]

ghost use Rattle.std.specs.Prelude.{◌≡◌};
ghost use Rattle.text.specs.Written.{Writes};
ghost use Rattle.witness.specs.Written.{packet_read, options_read, ttl_read, first_of, next_of, Paged};
ghost use Rattle.witness.specs.Taken.{search_read, hops_read};
ghost use Rattle.witness.specs.Lined.{line_read};
ghost use Rattle.witness.specs.Walked.{walk_read};
ghost use Rattle.witness.specs.Wrote.{raw_line, line_at};

use report::PAGE;
use witness::{
    PlainLine, PlainObservation, PlainOptions, PlainPacket, PlainProgress, PlainSearch, PlainTtl,
    PlainWalk, PlainWrote,
};

// The reading of a packet, in a mode that is given as for C; a peer's MSS of 0 is an absent one.
#[unsafe(no_mangle)]
pub extern "C" fn witness_packet(packet: &[u8], peer: u16, bits: u8) -> PlainPacket
    ensures { result ≡ packet_read bits packet.now peer }
{
    witness::witness_packet(packet, peer, bits)
}

#[unsafe(no_mangle)]
pub extern "C" fn witness_options(options: &[u8]) -> PlainOptions
    ensures { result ≡ options_read options.now }
{
    witness::witness_options(options)
}

// The walk of an option string as of a SYN or not, from no quirks. It stops before the first option that runs past the end if bit 0 is
// set, before the first of a short length if bit 1 is; the other bits are not read.
#[unsafe(no_mangle)]
pub extern "C" fn witness_walk(options: &[u8], stop: u8, syn: bool) -> PlainWalk
    ensures { result ≡ walk_read stop syn options.now }
{
    witness::witness_walk(options, stop, syn)
}

// The reading of a line of p0f's text form.
#[unsafe(no_mangle)]
pub extern "C" fn witness_line(line: &[u8]) -> PlainLine
    ensures { result ≡ line_read line.now }
{
    witness::witness_line(line)
}

// The raw line of an observation, into a lent buffer.
#[unsafe(no_mangle)]
pub extern "C" fn witness_raw(buffer: &mut [u8], observation: PlainObservation) -> PlainWrote
    ensures { Writes buffer.old (raw_line observation) result buffer.new }
{
    witness::witness_raw(buffer, observation)
}

// The line of a list's record, by its number from 0, into a lent buffer.
#[unsafe(no_mangle)]
pub extern "C" fn witness_record(buffer: &mut [u8], list: &[u8], index: usize) -> PlainWrote
    ensures { Writes buffer.old (line_at list.now index) result buffer.new }
{
    witness::witness_record(buffer, list, index)
}

#[unsafe(no_mangle)]
pub extern "C" fn witness_search(observation: PlainObservation, list: &[u8]) -> PlainSearch
    ensures { result ≡ search_read observation list.now }
{
    witness::witness_search(observation, list)
}

// The entry of a TTL byte in the table: what it is taken for, by the codes of a record, and its guess.
#[unsafe(no_mangle)]
pub extern "C" fn witness_ttl(ttl: u8) -> PlainTtl
    ensures { result ≡ ttl_read ttl }
{
    witness::witness_ttl(ttl)
}

// The hop distance that is reported for two TTLs of three bytes each (form, TTL, distance): an observed one, then a signature's.
#[unsafe(no_mangle)]
pub extern "C" fn witness_hops(ttls: &[u8]) -> u8
    ensures { result ≡ hops_read ttls.now }
{
    witness::witness_hops(ttls)
}

// The first page of a bundle's output in such a mode, and the next one after a progress.
#[unsafe(no_mangle)]
pub extern "C" fn witness_first_page(
    bundle: &[u8],
    page: &mut [u8; PAGE],
    bits: u8,
) -> PlainProgress
    ensures { Paged page.old (first_of bits bundle.now) result page.new }
{
    witness::witness_first_page(bundle, page, bits)
}

#[unsafe(no_mangle)]
pub extern "C" fn witness_next_page(
    bundle: &[u8],
    progress: PlainProgress,
    page: &mut [u8; PAGE],
    bits: u8,
) -> PlainProgress
    ensures { Paged page.old (next_of bits bundle.now progress) result page.new }
{
    witness::witness_next_page(bundle, progress, page, bits)
}
