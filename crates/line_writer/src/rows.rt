// The rows of a line, its layout and its quirks: each with the colon before it, and commas between its words.
ghost use Rattle.std.specs.Prelude.{cond, [], ◌∷◌, ◌≡◌, ◌≤◌, eqb, length};
ghost use Rattle.text.specs.Written.{Put};
ghost use Rattle.line_writer.specs.Rows.{between_at, name_at, layout_row, quirks_row, NameCounted, TurnedTo};

use display::lengths::{option_length, quirk_length};
use display::{put_option, put_quirk};
use quirks::{Quirk, QuirkSet};
use tcp::Layout;
use text::put_byte;

// The byte before the first word of a row; behind it the words have commas before them.
const COLON: u8 = b':';

const COMMA: u8 = b',';

// The byte before a word that is put at a place of a row: the colon at the row's start.
#[tactic(auto, unfolding(crate::specs::Rows::between_at))]
fn between(start: usize, at: usize) -> u8
    ensures { result ≡ between_at start at }
{
    if at == start { COLON } else { COMMA }
}

// A row without words is its colon alone.
fn close_row(buffer: &mut [u8], at: usize, between: u8) -> usize
    ensures { Put buffer.old at (cond (eqb between 58) (58 ∷ []) []) result buffer.new }
{
    if between == COLON {
        return put_byte(buffer, at, COLON);
    }
    at
}

// The entries of a layout, kind and byte in turn, forty at most.
#[derive(Clone, Copy)]
pub(crate) struct Entries<'a> {
    pub(crate) bytes: &'a [u8],
    ghost at_most_40: { length bytes.now ≤ 80 },
}

impl Entries<'_> {
    // How long their row is.
    pub(crate) fn row_length(self) -> usize
        ensures { result ≡ length (layout_row self.entry.bytes.now) }
    {
        let entries = self.bytes;
        let count = entries.len() / 2;
        if count == 0 {
            return 1;
        }
        let mut size = 0;
        for i in 0..count {
            size += 1 + option_length(entries[2 * i], entries[2 * i + 1]);
        }
        size
    }
}

// The row of entries.
pub(crate) fn put_layout(buffer: &mut [u8], at: usize, entries: &[u8]) -> usize
    ensures { Put buffer.old at (layout_row entries.now) result buffer.new }
{
    let mut next = at;
    let mut between = COLON;
    for i in 0..entries.len() / 2 {
        let word = put_byte(buffer, next, between);
        next = put_option(buffer, word, entries[2 * i], entries[2 * i + 1]);
        between = COMMA;
    }
    close_row(buffer, next, between)
}

// ---- quirks, in display order

// The name of a quirk, if the set has it, in a row that starts at a place.
fn put_shown(buffer: &mut [u8], start: usize, at: usize, quirks: QuirkSet, quirk: Quirk) -> usize
    ensures { Put buffer.old at (name_at start at quirks quirk) result buffer.new }
{
    if !quirks.contains(quirk) {
        return at;
    }
    let name = put_byte(buffer, at, between(start, at));
    put_quirk(buffer, name, quirk)
}

pub(crate) fn put_quirks(buffer: &mut [u8], start: usize, quirks: QuirkSet) -> usize
    ensures { Put buffer.old start (quirks_row quirks) result buffer.new }
{
    let mut at = start;
    for quirk in Quirk::DISPLAY_ORDER {
        at = put_shown(buffer, start, at, quirks, quirk);
    }
    close_row(buffer, at, between(start, at))
}

// The bytes that a quirk's name takes, with the byte before it; none if the set does not have it.
#[tactic(auto, using(crate::proofs::Names::name_short))]
fn shown_length(quirks: QuirkSet, quirk: Quirk) -> usize
    ensures { NameCounted quirks quirk result }
{
    if !quirks.contains(quirk) {
        return 0;
    }
    1 + quirk_length(quirk)
}

pub(crate) fn quirks_length(quirks: QuirkSet) -> usize
    ensures { result ≡ length (quirks_row quirks) }
{
    let mut size = 0;
    for quirk in Quirk::DISPLAY_ORDER {
        size += shown_length(quirks, quirk);
    }
    if size == 0 {
        return 1;
    }
    size
}

// ---- the layout of an observation, as a list has it

// Kind and byte in turn; past the count the places are 0.
pub(crate) fn entries_in(layout: Layout) -> [u8; 80]
    requires { layout.count ≤ 40 }
    ensures { TurnedTo layout.kinds layout.bytes layout.count result }
{
    let mut entries = [0u8; 80];
    for i in 0..layout.count {
        entries[2 * i] = layout.kinds[i];
        entries[2 * i + 1] = layout.bytes[i];
    }
    entries
}
