// The lines of the answers, put into a page from a place on; each function hands back the place behind what it put. Page and place travel
// as two, as the public functions of the crate `text` take them.
ghost use Rattle.std.specs.Prelude.{◌++◌};
ghost use Rattle.text.specs.Decimal.{decimal, newline};
ghost use Rattle.text.specs.Written.{Put};
ghost use Rattle.report.specs.Text.{kind_word, found_text, answer_text, line_of};

use flow::Kind;
use found::Found;
use packet_answer::PacketAnswer;
use refusals::{PacketRefusal, refusal_number};
use text::{put_byte, put_decimal, put_word};

// A word, and a number behind it.
fn put_number(page: &mut [u8], at: usize, word: &[u8], n: u16) -> usize
    ensures { Put page.old at (word.now ++ decimal n) result page.new }
{
    let next = put_word(page, at, word);
    put_decimal(page, next, n)
}

// A word, a number behind it, and the end of the line.
pub fn put_numbered(page: &mut [u8], at: usize, word: &[u8], n: u16) -> usize
    ensures { Put page.old at (word.now ++ decimal n ++ newline) result page.new }
{
    let end = put_number(page, at, word, n);
    put_byte(page, end, b'\n')
}

// What was found.
#[tactic(auto, unfolding(crate::specs::Text::found_text))]
fn put_found(page: &mut [u8], at: usize, found: Found) -> usize
    ensures { Put page.old at (found_text found) result page.new }
{
    match found {
        Found::None => put_word(page, at, b"none"),
        Found::Exact(hit) => put_number(page, at, b"exact ", hit.label),
        Found::Fuzzy(hit, _) => put_number(page, at, b"fuzzy ", hit.label),
    }
}

// The word of a kind.
fn put_kind(page: &mut [u8], at: usize, kind: Kind) -> usize
    ensures { Put page.old at (kind_word kind) result page.new }
{
    match kind {
        Kind::Syn => put_word(page, at, b"syn "),
        Kind::SynAck => put_word(page, at, b"synack "),
    }
}

// The words of an answer.
#[tactic(auto, unfolding(crate::specs::Text::answer_text))]
pub fn put_answer(page: &mut [u8], at: usize, answer: Result<PacketAnswer, PacketRefusal>) -> usize
    ensures { Put page.old at (answer_text answer) result page.new }
{
    match answer {
        Ok(PacketAnswer::Opening(kind, searched)) => {
            let next = put_kind(page, at, kind);
            put_found(page, next, searched.found)
        }
        Ok(PacketAnswer::Nothing) => put_word(page, at, b"nothing"),
        Err(refusal) => put_number(
            page,
            at,
            b"refused ",
            u16::from(refusal_number(refusal.into())),
        ),
    }
}

// An answer, and the end of the line.
pub(crate) fn put_line(
    page: &mut [u8],
    at: usize,
    answer: Result<PacketAnswer, PacketRefusal>,
) -> usize
    ensures { Put page.old at (line_of answer) result page.new }
{
    let end = put_answer(page, at, answer);
    put_byte(page, end, b'\n')
}
