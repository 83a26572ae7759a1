// The line of a record below a packet's, put into a lent buffer; each function hands back the place behind what it put.
ghost use Rattle.std.specs.Prelude.{cond, [], ◌<◌, ◌≡◌};
ghost use Rattle.text.specs.Written.{Put};
ghost use Rattle.explain.specs.GateText.{name_at, shown_name, names_of, gates_text};
ghost use Rattle.explain.specs.RecordLine.{which_text, explained_line};

use crate::gates::{Gates, Said, row_of};
use file_writer::put_listed;
use siglist::{SigList, record_at};
use sigrecord::{is_generic, label_of};
use text::{put_byte, put_decimal, put_word};

// ---- the names of the fields

const NAMES: [&[u8]; 9] = [
    b"ver", b"ttl", b"olen", b"mss", b"wsize", b"scale", b"olayout", b"quirks", b"pclass",
];

fn name_of(k: usize) -> &'static [u8]
    requires { k < 9 }
    ensures { result.now ≡ name_at k }
{
    NAMES[k]
}

// A text, where it is shown.
fn put_if(line: &mut [u8], at: usize, shown: bool, text: &[u8]) -> usize
    ensures { Put line.old at (cond shown text.now []) result line.new }
{
    if shown { put_word(line, at, text) } else { at }
}

// A name that is shown, behind a comma if another stands before it.
fn put_named(line: &mut [u8], at: usize, any: bool, shown: bool, k: usize) -> usize
    requires { k < 9 }
    ensures { Put line.old at (shown_name any shown k) result line.new }
{
    if !shown {
        return at;
    }
    let name = put_if(line, at, any, b",");
    put_word(line, name, name_of(k))
}

// The names of the fields of which this is said; a dash if there is none.
fn put_names(line: &mut [u8], at: usize, row: &[Said; 9], what: Said) -> usize
    ensures { Put line.old at (names_of what row.now) result line.new }
{
    let mut next = at;
    let mut any = false;
    for (k, said) in row.iter().enumerate() {
        let shown = *said == what;
        next = put_named(line, next, any, shown, k);
        any |= shown;
    }
    put_if(line, next, !any, b"-")
}

// ---- the parts of the line

fn put_gates(line: &mut [u8], at: usize, row: &[Said; 9]) -> usize
    ensures { Put line.old at (gates_text row.now) result line.new }
{
    let held = put_word(line, at, b" holds=");
    let behind_held = put_names(line, held, row, Said::Holds);
    let tolerated = put_word(line, behind_held, b" tolerates=");
    let behind_tolerated = put_names(line, tolerated, row, Said::Tolerated);
    let failed = put_word(line, behind_tolerated, b" fails=");
    put_names(line, failed, row, Said::Fails)
}

// Which record it is.
fn put_which(line: &mut [u8], at: usize, i: u16, raw: &[u8]) -> usize
    ensures { Put line.old at (which_text i raw.now) result line.new }
{
    let number = put_word(line, at, b"  record ");
    let behind_number = put_decimal(line, number, i);
    let label = put_word(line, behind_number, b" label ");
    let behind_label = put_decimal(line, label, label_of(raw));
    put_if(line, behind_label, is_generic(raw), b" generic")
}

// The line of record i of a list, of which these are the gates.
pub(crate) fn put_explained(line: &mut [u8], gates: Gates, list: SigList, i: u16) -> usize
    requires { i < list.areas.records }
    ensures { Put line.old 0 (explained_line gates list.entry.bytes.now i) result line.new }
{
    let row = row_of(gates);
    let behind_which = put_which(line, 0, i, record_at(list.bytes, list.areas, i as usize));
    let behind_gates = put_gates(line, behind_which, &row);
    let signature = put_word(line, behind_gates, b" line=");
    let behind_signature = put_listed(line, signature, list.bytes, i as usize);
    put_byte(line, behind_signature, b'\n')
}
