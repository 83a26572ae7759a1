// The three parts of a list, put into a buffer: the header, the layout entries of all lines, the records.
ghost use Rattle.std.specs.Prelude.{◌≡◌, ◌≤◌, Ok};
ghost use Rattle.text.specs.Written.{Put};
ghost use Rattle.signature_line.specs.OneRecord.{entries_in};
ghost use Rattle.keeper_file.specs.Compiling.{most_signatures, most_entries};
ghost use Rattle.keeper_file.specs.ListText.{entry_total, header_text, placed_at};
ghost use Rattle.list_compiler.specs.FileParts.{file_check, file_meanings, file_entries, file_records};

use crate::lines::Lines;
use keeper_file::Counts;
use tcp::Layout;
use text::{put_byte, put_word};

// Signature count, offset of records, layout entry count, offset of layout entries, the high byte first.
#[tactic(auto, unfolding(keeper_file::specs::ListText::header_text))]
pub(crate) fn put_header(buffer: &mut [u8], counts: Counts) -> usize
    requires signatures_le_most_signatures { counts.signatures ≤ most_signatures }
    requires entries_le_most_entries { counts.entries ≤ most_entries }
    ensures { Put buffer.old 0 (header_text counts.signatures counts.entries) result buffer.new }
{
    let signatures = (counts.signatures as u16).to_be_bytes();
    let records = ((8 + 2 * counts.entries) as u16).to_be_bytes();
    let entries = (counts.entries as u16).to_be_bytes();
    let header = [
        signatures[0],
        signatures[1],
        records[0],
        records[1],
        entries[0],
        entries[1],
        0,
        8,
    ];
    put_word(buffer, 0, &header)
}

// ---- entries

// Kind and byte in turn.
fn put_entries(buffer: &mut [u8], at: usize, layout: Layout) -> usize
    requires { layout.count ≤ 40 }
    ensures { Put buffer.old at (entries_in layout) result buffer.new }
{
    let mut next = at;
    for i in 0..layout.count {
        let place = put_byte(buffer, next, layout.kinds[i]);
        next = put_byte(buffer, place, layout.bytes[i]);
    }
    next
}

pub(crate) fn put_all_entries(buffer: &mut [u8], start: usize, file: &[u8]) -> usize
    ensures { Put buffer.old start (file_entries file.now) result buffer.new }
{
    let mut next = start;
    for line in Lines::of(file) {
        if let Ok(read) = line.read {
            next = put_entries(buffer, next, read.layout);
        }
    }
    next
}

// ---- records

// A record, with its first entry put into it.
#[tactic(auto, unfolding(keeper_file::specs::ListText::placed_at))]
fn put_record(buffer: &mut [u8], at: usize, unplaced: [u8; 24], first: usize) -> usize
    requires { first ≤ 65535 }
    ensures { Put buffer.old at (placed_at first unplaced) result buffer.new }
{
    let mut raw = unplaced;
    [raw[18], raw[19]] = (first as u16).to_be_bytes();
    put_word(buffer, at, &raw)
}

// The first entry of a record is behind those of the lines before it.
pub(crate) fn put_records(buffer: &mut [u8], start: usize, file: &[u8]) -> usize
    requires good { file_check file.now ≡ Ok tt }
    requires few { entry_total (file_meanings file.now) ≤ most_entries }
    ensures { Put buffer.old start (file_records file.now) result buffer.new }
{
    let mut next = start;
    let mut first = 0;
    for line in Lines::of(file) {
        if let Ok(read) = line.read {
            next = put_record(buffer, next, read.raw, first);
            first += read.layout.count;
        }
    }
    next
}
