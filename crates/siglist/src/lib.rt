// The signature list (document 01, "The signature list"): added by the port.
#![tactic(auto)]

ghost use Rattle.std.specs.Prelude.{◌≡◌, ◌+◌, ◌*◌, ◌≤◌, ◌<◌, length};
ghost use Rattle.siglist.specs.Entries.{all_entries_good};
ghost use Rattle.siglist.specs.List.{area_fits, list_fits, areas_of, header_of, AreasFit, record_of, entries_lie, layout_lies};
ghost use Rattle.siglist.specs.List.{record_good, check_list};

use numbers::be16_at;
use refusals::ListRefusal;
use sigrecord::{RECORD, entries_good, entry_count, first_entry, forms_well_formed, quirks_good};

const HEADER: usize = 8;

// The numbers of a list's header.
#[derive(Clone, Copy)]
pub struct Areas {
    pub records: u16,
    pub records_offset: u16,
    pub entries: u16,
    pub entries_offset: u16,
}

// A list that fits: its bytes, and the numbers of its header.
#[derive(Clone, Copy)]
pub struct SigList<'a> {
    pub bytes: &'a [u8],
    pub areas: Areas,
    ghost fits: { AreasFit bytes.now areas },
}

impl SigList<'_> {
    #[tactic(auto, using(crate::proofs::List::lie_within, crate::proofs::List::row_of_lem), unfolding(crate::specs::List::layout_lies))]
    fn layout_good(self, first: u16, count: u8) -> bool
        ensures { result ≡ layout_lies self.entry.bytes.now first count }
    {
        if !entries_lie(self.areas, first, count) {
            return false;
        }
        let start = self.areas.entries_offset as usize + 2 * first as usize;
        let end = start + 2 * count as usize;
        entries_good(&self.bytes[start..end])
    }

    // A record's layout is walked over only where not all entries of the list are good.
    fn record_good(self, all_good: bool, i: usize) -> bool
        requires { (i < self.areas.records) × (all_good ≡ all_entries_good self.bytes.now) }
        ensures { result ≡ record_good self.entry.bytes.now i }
    {
        let raw = record_at(self.bytes, self.areas, i);
        if !forms_well_formed(raw) {
            return false;
        }
        if !quirks_good(raw) {
            return false;
        }
        if all_good {
            return entries_lie(self.areas, first_entry(raw), entry_count(raw));
        }
        self.layout_good(first_entry(raw), entry_count(raw))
    }
}

#[tactic(auto, unfolding(crate::specs::List::areas_of))]
fn areas_of(list: &[u8]) -> Areas
    ensures { result ≡ areas_of list.now }
{
    Areas {
        records: be16_at(list, 0),
        records_offset: be16_at(list, 2),
        entries: be16_at(list, 4),
        entries_offset: be16_at(list, 6),
    }
}

// The header's test of the records, and the very same one of each record taken: behind the first the others cost nothing.
fn records_fit(list: &[u8], areas: Areas) -> bool
    ensures { result ≡ area_fits areas.records_offset (24 * areas.records) list.now }
{
    areas.records_offset as usize + RECORD * areas.records as usize <= list.len()
}

#[tactic(auto, unfolding(crate::specs::List::list_fits, crate::specs::List::areas_of))]
fn list_fits(list: &[u8]) -> bool
    ensures { result ≡ list_fits list.now }
{
    if list.len() < HEADER {
        return false;
    }
    let areas = areas_of(list);
    records_fit(list, areas)
        && areas.entries_offset as usize + 2 * areas.entries as usize <= list.len()
}

// A list's header, if it and its areas fit. By `then_some`, tried, a search costs 43 instructions more.
#[tactic(auto, unfolding(crate::specs::List::header_of))]
pub fn read_header(list: &[u8]) -> Option<Areas>
    ensures { result ≡ header_of list.now }
{
    if !list_fits(list) {
        return None;
    }
    Some(areas_of(list))
}

// The bytes of record i of a list, and none if its header's numbers do not have it in the list.
#[tactic(auto, unfolding(crate::specs::List::record_of))]
pub fn record_at<'a>(list: &'a [u8], areas: Areas, i: usize) -> &'a [u8]
    ensures { result.now ≡ record_of list.now areas i }
{
    if areas.records as usize <= i {
        return &list[0..0];
    }
    if !records_fit(list, areas) {
        return &list[0..0];
    }
    let start = areas.records_offset as usize + RECORD * i;
    let end = start + RECORD;
    &list[start..end]
}

// Whether so many entries from one on are few enough for a layout, and lie within the layout area.
pub fn entries_lie(areas: Areas, first: u16, count: u8) -> bool
    ensures { result ≡ entries_lie areas.entries first count }
{
    count <= 40 && first as usize + count as usize <= areas.entries as usize
}

// A list is well formed, or refused by 9, or by 10 with the index of its first bad record. Its layout area is walked over once, and
// record by record only where that finds a bad entry: layouts may share entries, which record by record are walked over again and again.
pub fn check_list(list: &[u8]) -> Result<(), ListRefusal>
    ensures { result ≡ check_list list.now }
{
    let Some(areas) = read_header(list) else {
        return Err(ListRefusal::DoesNotFit);
    };
    let checked = SigList { bytes: list, areas };
    let start = areas.entries_offset as usize;
    let end = start + 2 * areas.entries as usize;
    let all_good = entries_good(&list[start..end]);
    for i in 0..areas.records as usize {
        if !checked.record_good(all_good, i) {
            return Err(ListRefusal::BadRecord(i));
        }
    }
    Ok(())
}
