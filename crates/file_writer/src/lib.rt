// The way back: a signature list written as a keeper's file, a signature a line. A file is counted before it is written, so that a buffer
// that is too short is left as it was.
#![tactic(auto)]

ghost use Rattle.std.specs.Prelude.{◌≡◌, length};
ghost use Rattle.text.specs.Written.{Put, Writes};
ghost use Rattle.keeper_file.specs.FileText.{head_text, file_text, write_file};
ghost use Rattle.file_writer.specs.Shown.{listed_text, shown_text, GoodList};

use line_writer::write_listed;
use numbers::be16_at;
use refusals::Refusal;
use siglist::{check_list, read_header, record_at};
use sigrecord::{is_generic, label_of};
use text::{put_byte, put_decimal, put_word};

// The longest line of a record.
const RECORD_LINE: usize = 434;

// The longest line of a file: a label of five digits, a blank, `g `, a record's line, and the line's end.
pub const FILE_LINE: usize = 443;

// ---- a line

// What stands before a record's line: its label, a blank, and `g ` if it is generic.
fn put_head(buffer: &mut [u8], at: usize, raw: &[u8]) -> usize
    ensures { Put buffer.old at (head_text raw.now) result buffer.new }
{
    let blank = put_decimal(buffer, at, label_of(raw));
    let next = put_byte(buffer, blank, b' ');
    if is_generic(raw) {
        return put_word(buffer, next, b"g ");
    }
    next
}

// A record's line, of a list that was checked before; nothing if there is none.
pub fn put_listed(buffer: &mut [u8], at: usize, list: &[u8], index: usize) -> usize
    ensures { Put buffer.old at (listed_text list.now index) result buffer.new }
{
    let mut line = [0u8; RECORD_LINE];
    match write_listed(&mut line, list, index) {
        Ok(size) => put_word(buffer, at, &line[..size]),
        Err(_) => at,
    }
}

// Record `index` of a list that was checked before, as a line of a file with its end; nothing of a record that the list does not have.
pub fn put_shown(buffer: &mut [u8], at: usize, list: &[u8], index: usize) -> usize
    ensures { Put buffer.old at (shown_text list.now index) result buffer.new }
{
    let Some(areas) = read_header(list) else {
        return at;
    };
    if areas.records as usize <= index {
        return at;
    }
    let next = put_head(buffer, at, record_at(list, areas, index));
    let behind = put_listed(buffer, next, list, index);
    put_byte(buffer, behind, b'\n')
}

// ---- a file

fn shown_length(list: &[u8], index: usize) -> usize
    ensures { result ≡ length (shown_text list.now index) }
{
    let mut line = [0u8; FILE_LINE];
    put_shown(&mut line, 0, list, index)
}

// How long the file of a list is that passed its check.
fn file_length(list: &[u8], count: u16) -> usize
    requires { GoodList list.now count }
    ensures { result ≡ length (file_text list.now) }
{
    let mut size = 0;
    for i in 0..count as usize {
        size += shown_length(list, i);
    }
    size
}

// The file, as much of it as finds room.
fn put_lines(buffer: &mut [u8], list: &[u8], count: u16) -> usize
    requires { GoodList list.now count }
    ensures { Put buffer.old 0 (file_text list.now) result buffer.new }
{
    let mut next = 0;
    for i in 0..count as usize {
        next = put_shown(buffer, next, list, i);
    }
    next
}

// The file of a list, or refusal 9, 10 or 15.
pub fn write_file(buffer: &mut [u8], list: &[u8]) -> Result<usize, Refusal>
    ensures { Writes buffer.old (write_file list.now) result buffer.new }
{
    check_list(list)?;
    let count = be16_at(list, 0);
    let size = file_length(list, count);
    if buffer.len() < size {
        return Err(Refusal::BufferTooShort);
    }
    put_lines(buffer, list, count);
    Ok(size)
}
