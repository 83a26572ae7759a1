// A line of a keeper's file: where it lies in the file, and the record with its layout that it means.
#![tactic(auto)]

ghost use Rattle.std.specs.Prelude.{◌≡◌, ◌<◌};
ghost use Rattle.keeper_file.specs.KeptLine.{kind_and_label};
ghost use Rattle.keeper_file.specs.KeptReader.{read_kept};
ghost use Rattle.keeper_file.specs.Lines.{passed_over};
ghost use Rattle.keeper_line.specs.Places.{mark_at, feed_at, text_end, kept_at};

use numerals::{Piece, read_numeral};
use one_field::behind;
use parse_tcp::parse_tcp_signature;
use signature_line::{BadLine, SignatureRead};

// A line of a file: where the next one starts, and what was read of it, unless it is passed over.
#[derive(Clone, Copy)]
pub struct KeptAt {
    pub next: usize,
    pub read: Option<Result<SignatureRead, BadLine>>,
}

// ---- a signature line

// `g ` before the line of a generic signature, or nothing.
fn read_mark(s: &[u8], at: usize) -> Result<Piece, BadLine>
    ensures { result ≡ mark_at s.now at }
{
    let Ok(next) = behind(s, Ok(at), b'g') else {
        return Ok(Piece {
            at,
            form: 0,
            number: 0,
        });
    };
    let end = behind(s, Ok(next), b' ')?;
    Ok(Piece {
        at: end,
        form: 1,
        number: 0,
    })
}

// Byte 21 of a record, and its label, the high byte first; `as u8`, since a conversion that could fail would be no plainer.
#[tactic(auto, unfolding(keeper_file::specs::KeptLine::kind_and_label))]
fn with_label(unlabelled: [u8; 24], kind: u32, label: u32) -> [u8; 24]
    requires kind_bound { kind < 256 }
    requires label_bound { label < 65536 }
    ensures { result ≡ kind_and_label kind label unlabelled }
{
    let mut raw = unlabelled;
    raw[21] = kind as u8;
    raw[22] = (label / 256) as u8;
    raw[23] = (label % 256) as u8;
    raw
}

// A signature line: a label, a blank, the mark of a generic signature, and the line of Wish 1; or refusal 13 with the offset in the line.
pub fn read_kept(line: &[u8]) -> Result<SignatureRead, BadLine>
    ensures { result ≡ read_kept line.now }
{
    let label = read_numeral(line, 0, 65535, 0)?;
    let mark = read_mark(line, behind(line, Ok(label.at), b' ')?)?;
    match parse_tcp_signature(&line[mark.at..]) {
        Ok(read) => Ok(SignatureRead {
            raw: with_label(read.raw, mark.form, label.number),
            layout: read.layout,
        }),
        Err(bad) => Err(BadLine {
            offset: mark.at + bad.offset,
        }),
    }
}

// ---- the lines of a file

// The place of the first line feed from a place on; the end, if there is none.
fn feed_from(file: &[u8], at: usize) -> usize
    ensures { result ≡ feed_at file.now at }
{
    for i in at..file.len() {
        if file[i] == b'\n' {
            return i;
        }
    }
    at.max(file.len())
}

// A carriage return before a line feed is no part of the line.
#[tactic(auto, unfolding(crate::specs::Places::text_end))]
fn text_end(file: &[u8], at: usize, feed: usize) -> usize
    ensures { result ≡ text_end file.now at feed }
{
    if feed < file.len() && at < feed && file[feed - 1] == b'\r' {
        return feed - 1;
    }
    feed
}

// An empty line, and one that begins with `;`.
fn passed_over(text: &[u8]) -> bool
    ensures { result ≡ passed_over text.now }
{
    text.is_empty() || text[0] == b';'
}

// The line that starts at a place; behind the end there is none.
pub fn kept_at(file: &[u8], at: usize) -> KeptAt
    ensures { result ≡ kept_at file.now at }
{
    if file.len() <= at {
        return KeptAt {
            next: at,
            read: None,
        };
    }
    let feed = feed_from(file, at);
    let text = &file[at..text_end(file, at, feed)];
    let read = if passed_over(text) {
        None
    } else {
        Some(read_kept(text))
    };
    KeptAt {
        next: feed + 1,
        read,
    }
}
