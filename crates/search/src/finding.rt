// The search: how a record fits, and the row of records.
ghost use Rattle.std.specs.Prelude.{◌≡◌, true, ◌+◌, ◌*◌, ◌≤◌, ◌<◌, length};
ghost use Rattle.matching.specs.Fit.{passes};
ghost use Rattle.basis.specs.Bytes.{part};
ghost use Rattle.matching.specs.Asked.{count_and_scale_match};
ghost use Rattle.siglist.specs.List.{record_at};
ghost use Rattle.found.specs.Examined.{searched_in};
ghost use Rattle.found.specs.Rank.{rank_of};
ghost use Rattle.search.specs.Candidate.{holds};
ghost use Rattle.search.specs.Next.{Next, NextOf};
ghost use Rattle.search.specs.Search.{candidate_at, searched_records};

use found::{Found, Hit, Searched, UNRANKED, found_of, rank_of};
use matching::{Features, count_and_scale_match, olayout_matches, other_gates_match, tolerance};
use siglist::{SigList, entries_lie, record_at};
use sigrecord::{RECORD, entry_count, first_entry, is_generic, label_of, scalars_well_formed};
use tcp::Layout;

// Whether a record's layout is the observation's, and the record well formed.
fn record_holds(count: usize, layout: &Layout, list: SigList, raw: &[u8]) -> bool
    ensures { result ≡ holds count layout.now.kinds layout.now.bytes list.entry.bytes.now raw.now }
{
    let first = first_entry(raw);
    let declared = entry_count(raw);
    if !entries_lie(list.areas, first, declared) {
        return false;
    }
    let start = list.areas.entries_offset as usize + 2 * first as usize;
    let end = start + 2 * declared as usize;
    let entries = &list.bytes[start..end];
    if !olayout_matches(
        &layout.kinds,
        &layout.bytes,
        count,
        entries,
        declared as usize,
    ) {
        return false;
    }
    scalars_well_formed(raw)
}

// What is found in record i alone, which passes the gates: whether its layout is the observation's and it is well formed, then TTL and
// quirks (docs/DECISIONS.md, 118).
fn candidate_at(observed: Features, layout: &Layout, list: SigList, i: usize) -> Found
    requires { (i < list.areas.records) × (passes observed (record_at list.bytes.now i) ≡ true) }
    ensures { result ≡ candidate_at observed layout.now.kinds layout.now.bytes list.entry.bytes.now i }
{
    let raw = record_at(list.bytes, list.areas, i);
    if !record_holds(observed.count, layout, list, raw) {
        return Found::None;
    }
    let fit = tolerance(observed, raw);
    let hit = Hit {
        label: label_of(raw),
        number: i as u16,
        generic: is_generic(raw),
    };
    found_of(hit, fit)
}

// Whether the record that starts at a place of the list passes the gates of count and scale.
fn alike_at(count: u8, wscale: Option<u8>, list: &[u8], at: usize) -> bool
    requires { at + 24 ≤ length list.now }
    ensures { result ≡ count_and_scale_match count wscale (part at (at + 24) list.now) }
{
    let end = at + RECORD;
    count_and_scale_match(count, wscale, &list[at..end])
}

// The first record from one on that passes these two, or the end. Most records are passed over here, so that four are looked at in a turn.
// Both loops are a `while`: the first steps by four, and where it stops the second goes on, to the record that is the answer.
fn next_alike(count: u8, wscale: Option<u8>, list: SigList, from: usize) -> usize
    requires { from ≤ list.areas.records }
    ensures { NextOf (count_and_scale_match count wscale) list.entry.bytes.now list.entry.areas.records from result }
{
    let bytes = list.bytes;
    let first = list.areas.records_offset as usize;
    let size = list.areas.records as usize;
    let mut i = from;
    while i + 4 <= size {
        let at = first + RECORD * i;
        if alike_at(count, wscale, bytes, at) {
            return i;
        }
        if alike_at(count, wscale, bytes, at + RECORD) {
            return i + 1;
        }
        if alike_at(count, wscale, bytes, at + 2 * RECORD) {
            return i + 2;
        }
        if alike_at(count, wscale, bytes, at + 3 * RECORD) {
            return i + 3;
        }
        i += 4;
    }
    while i < size {
        if alike_at(count, wscale, bytes, first + RECORD * i) {
            return i;
        }
        i += 1;
    }
    i
}

// The first record from one on that passes the gates, or the end. The count of the observation's entries is given as a byte too, as a
// record has it. A `while`: each turn goes on behind the record that `next_alike` found.
fn next_candidate(observed: Features, count: u8, list: SigList, from: usize) -> usize
    requires { (from ≤ list.areas.records) × (count ≡ observed.count) }
    ensures { Next observed list.entry.bytes.now list.entry.areas.records from result }
{
    let size = list.areas.records as usize;
    let mut i = from;
    while i < size {
        i = next_alike(count, observed.wscale, list, i);
        if size <= i {
            return i;
        }
        if other_gates_match(observed, record_at(list.bytes, list.areas, i)) {
            return i;
        }
        i += 1;
    }
    i
}

// None, of so many records.
fn none_of(size: u16) -> Searched
    ensures { result ≡ record { found = Found.None; examined = size } }
{
    Searched {
        found: Found::None,
        examined: size,
    }
}

// What a search answers that no record ended: all were examined. One that holds nothing answers a constant, so that nothing that is held
// need be read for it (docs/DECISIONS.md, 96).
fn none_ended(held: Found, best: u8, size: u16) -> Searched
    requires { (best ≡ rank_of held) × (0 < best) }
    ensures { result ≡ searched_in size held }
{
    if best == UNRANKED {
        return none_of(size);
    }
    Searched {
        found: held,
        examined: size,
    }
}

// The records in list order, with the first of least rank among those passed; one of rank 0, specific and exact, ends the search, and
// its position, from one, is the count; else all were examined. No well-formed record has more than forty entries.
// A `while`: each turn goes on behind the candidate that was found.
pub(crate) fn search_records(observed: Features, layout: &Layout, list: SigList) -> Searched
    ensures { result ≡ searched_records observed layout.now.kinds layout.now.bytes list.entry.bytes.now }
{
    if 40 < observed.count {
        return none_of(list.areas.records);
    }
    let count = (observed.count % 256) as u8;
    let size = list.areas.records as usize;
    let mut held = Found::None;
    let mut best = UNRANKED;
    let mut i = 0;
    while i < size {
        i = next_candidate(observed, count, list, i);
        if size <= i {
            return none_ended(held, best, list.areas.records);
        }
        let found = candidate_at(observed, layout, list, i);
        let rank = rank_of(found);
        if rank == 0 {
            return Searched {
                found,
                examined: i as u16 + 1,
            };
        }
        if rank < best {
            held = found;
            best = rank;
        }
        i += 1;
    }
    none_ended(held, best, list.areas.records)
}
