// Outside witnesses: the answers as structs of numbers, for C drivers (tools/witness/witness.h); not part of the product.
#![tactic(auto)]

ghost use Rattle.std.specs.Prelude.{◌≡◌};
ghost use Rattle.text.specs.Written.{Writes};
ghost use Rattle.witness.specs.Written.{packet_read, options_read, ttl_read, plain_progress, first_of, next_of, Paged};
ghost use Rattle.witness.specs.Taken.{search_read, hops_read};
ghost use Rattle.witness.specs.Lined.{line_read};
ghost use Rattle.witness.specs.Walked.{walk_read};
ghost use Rattle.witness.specs.Wrote.{raw_line, line_at};

use flow::mode_of;
use line_writer::{write_observation, write_record};
use lined::plain_line;
use packet_answer::peer_of;
use quirks::QuirkSet;
use report::PAGE;
use searched::plain_search;
use taken::{observation_of, ttl_of};
use ttl::ttl_entry;
use walked::{plain_walk, stop_of};
use written::{observation_read, plain_options, plain_packet};
use wrote::plain_wrote;

mod lined;
mod searched;
mod taken;
mod walked;
pub mod written;
mod wrote;

// The structs below hold numbers for kinds and refusals, a `has_` beside what may be absent, and rows of kinds and bytes with a count: the
// C interface (tools/witness/witness.h). What makes each is a function that is named as its definition in specs/: a From is no plainer, and
// public.

// An observation. A value that is absent is 0, and so is its `has_`.
#[repr(C)]
#[derive(Clone, Copy)]
pub struct PlainObservation {
    pub count: usize,
    pub quirks: u32,
    pub mss: u16,
    pub wsize: u16,
    pub peer_mss: u16,
    pub tot_hdr: u16,
    pub multiple: u16,
    pub multiple_of: u8,
    pub version: u8,
    pub ttl_form: u8,
    pub ttl: u8,
    pub hops: u8,
    pub olen: u8,
    pub tos: u8,
    pub wscale: u8,
    pub pclass: u8,
    pub has_mss: u8,
    pub has_wscale: u8,
    pub has_peer_mss: u8,
    pub kinds: [u8; 40],
    pub bytes: [u8; 40],
}

#[repr(C)]
#[derive(Clone, Copy)]
pub struct PlainPacket {
    pub observation: PlainObservation,
    pub answer: u8,
    pub refusal: u8,
    pub flags: u8,
}

#[repr(C)]
#[derive(Clone, Copy)]
pub struct PlainOptions {
    pub count: usize,
    pub mss: u16,
    pub refusal: u8,
    pub malformed: bool,
    pub has_mss: u8,
    pub has_wscale: u8,
    pub wscale: u8,
    pub kinds: [u8; 40],
    pub bytes: [u8; 40],
}

// A walk over an option string, and the places of damage that it came to.
#[repr(C)]
#[derive(Clone, Copy)]
pub struct PlainWalk {
    pub count: usize,
    pub past_at: usize,
    pub short_at: usize,
    pub quirks: u32,
    pub mss: u16,
    pub refusal: u8,
    pub malformed: bool,
    pub has_past: u8,
    pub has_short: u8,
    pub has_mss: u8,
    pub has_wscale: u8,
    pub wscale: u8,
    pub kinds: [u8; 40],
    pub bytes: [u8; 40],
}

#[repr(C)]
#[derive(Clone, Copy)]
pub struct PlainTtl {
    pub class: u8,
    pub guess: u8,
}

#[repr(C)]
#[derive(Clone, Copy)]
pub struct PlainLine {
    pub count: usize,
    pub offset: usize,
    pub refusal: u8,
    pub raw: [u8; 24],
    pub kinds: [u8; 40],
    pub bytes: [u8; 40],
}

// What writing a line answers: its length, or the refusal.
#[repr(C)]
#[derive(Clone, Copy)]
pub struct PlainWrote {
    pub length: usize,
    pub bad_record: u32,
    pub refusal: u8,
}

#[repr(C)]
#[derive(Clone, Copy)]
pub struct PlainSearch {
    pub added: u32,
    pub missing: u32,
    pub bad_record: u32,
    pub label: u16,
    pub number: u16,
    pub examined: u16,
    pub outcome: u8,
    pub refusal: u8,
    pub far: u8,
    pub hops: u8,
    pub generic: u8,
}

#[repr(C)]
#[derive(Clone, Copy)]
pub struct PlainProgress {
    pub filled: usize,
    pub left: usize,
    pub at: usize,
}

// The reading of a packet, in a mode that is given as for C; a peer's MSS of 0 is an absent one.
#[tactic(auto, unfolding(crate::specs::Written::packet_read))]
pub fn witness_packet(packet: &[u8], peer: u16, bits: u8) -> PlainPacket
    ensures { result ≡ packet_read bits packet.now peer }
{
    let reading = flow::read_packet_in(packet, peer_of(peer), mode_of(bits));
    plain_packet(reading, observation_read(reading).window_multiplier())
}

#[tactic(auto, unfolding(crate::specs::Written::options_read))]
pub fn witness_options(options: &[u8]) -> PlainOptions
    ensures { result ≡ options_read options.now }
{
    plain_options(syn_options::parse_options_raw(options))
}

// The walk of an option string as of a SYN or not, from no quirks. It stops before the first option that runs past the end if bit 0 is
// set, before the first of a short length if bit 1 is; the other bits are not read.
#[tactic(auto, using(quirks::proofs::Named::empty_bits), unfolding(crate::specs::Walked::walk_read))]
pub fn witness_walk(options: &[u8], stop: u8, syn: bool) -> PlainWalk
    ensures { result ≡ walk_read stop syn options.now }
{
    plain_walk(syn_options::read_options(options, stop_of(stop), syn, QuirkSet::EMPTY))
}

// The reading of a line of p0f's text form.
#[tactic(auto, unfolding(crate::specs::Lined::line_read))]
pub fn witness_line(line: &[u8]) -> PlainLine
    ensures { result ≡ line_read line.now }
{
    plain_line(parse_tcp::parse_tcp_signature(line))
}

// The raw line of an observation, into a lent buffer.
#[tactic(auto, unfolding(crate::specs::Wrote::raw_line))]
pub fn witness_raw(buffer: &mut [u8], observation: PlainObservation) -> PlainWrote
    ensures { Writes buffer.old (raw_line observation) result buffer.new }
{
    plain_wrote(write_observation(buffer, observation_of(observation)))
}

// The line of a list's record, by its number from 0, into a lent buffer.
#[tactic(auto, unfolding(crate::specs::Wrote::line_at))]
pub fn witness_record(buffer: &mut [u8], list: &[u8], index: usize) -> PlainWrote
    ensures { Writes buffer.old (line_at list.now index) result buffer.new }
{
    plain_wrote(write_record(buffer, list, index))
}

#[tactic(auto, unfolding(crate::specs::Taken::search_read))]
pub fn witness_search(observation: PlainObservation, list: &[u8]) -> PlainSearch
    ensures { result ≡ search_read observation list.now }
{
    plain_search(search::search(observation_of(observation), list))
}

// The entry of a TTL byte in the table: what it is taken for, by the codes of a record, and its guess.
#[tactic(auto, unfolding(crate::specs::Written::ttl_read))]
pub fn witness_ttl(ttl: u8) -> PlainTtl
    ensures { result ≡ ttl_read ttl }
{
    let entry = ttl_entry(ttl);
    PlainTtl {
        class: entry.class,
        guess: entry.guess,
    }
}

// The hop distance that is reported for two TTLs of three bytes each (form, TTL, distance): an observed one, then a signature's.
#[tactic(auto, unfolding(crate::specs::Taken::hops_read))]
pub fn witness_hops(ttls: &[u8]) -> u8
    ensures { result ≡ hops_read ttls.now }
{
    if ttls.len() < 6 {
        return 0;
    }
    distances::report_hop_distance(
        ttl_of(ttls[0], ttls[1], ttls[2]),
        ttl_of(ttls[3], ttls[4], ttls[5]),
    )
}

fn plain_progress(progress: report::Progress) -> PlainProgress
    ensures { result ≡ plain_progress progress }
{
    PlainProgress {
        filled: progress.filled,
        left: progress.left,
        at: progress.at,
    }
}

// The first page of a bundle's output in such a mode, and the next one after a progress.
pub fn witness_first_page(bundle: &[u8], page: &mut [u8; PAGE], bits: u8) -> PlainProgress
    ensures { Paged page.old (first_of bits bundle.now) result page.new }
{
    plain_progress(report::first_page_in(bundle, false, page, mode_of(bits)))
}

pub fn witness_next_page(
    bundle: &[u8],
    progress: PlainProgress,
    page: &mut [u8; PAGE],
    bits: u8,
) -> PlainProgress
    ensures { Paged page.old (next_of bits bundle.now progress) result page.new }
{
    let from = report::Progress {
        filled: 0,
        left: progress.left,
        at: progress.at,
    };
    plain_progress(report::next_page_in(bundle, from, page, mode_of(bits)))
}
