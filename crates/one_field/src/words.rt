// What may follow a word.
ghost use Rattle.std.specs.Prelude.{◌≡◌};
ghost use Rattle.signature_line.specs.Words.{ttl_form};
ghost use Rattle.one_field.specs.Places.{piece_at, number_behind, behind_s, plus_at, multiple_at};

use crate::letters::{read_word, stands};
use crate::whole;
use numerals::{Piece, no_piece, read_numeral};
use signature_line::BadLine;

// A number up to 255, behind a word.
pub(crate) fn number_behind<const N: usize>(
    s: &[u8],
    from: usize,
    word: &[u8; N],
    form: u32,
) -> Result<Piece, BadLine>
    ensures { result ≡ number_behind word.now form s.now from }
{
    let word = read_word(s, from, word, 0)?;
    read_numeral(s, word.at, 255, form)
}

// `ok` or `ack`: what follows the first `s` of an entry.
pub(crate) fn read_behind_s(s: &[u8], from: usize) -> Result<Piece, BadLine>
    ensures { result ≡ behind_s s.now from }
{
    if stands(s, from, b'o') {
        return read_word(s, from + 1, b"k", 4);
    }
    read_word(s, from, b"ack", 5)
}

// `?`, or a distance: what follows the `+` of a TTL.
fn read_plus(s: &[u8], from: usize) -> Result<Piece, BadLine>
    ensures { result ≡ plus_at s.now from }
{
    if stands(s, from, b'?') {
        return Ok(whole(from + 1, 2));
    }
    read_numeral(s, from, 255, 1)
}

// What follows the number of a TTL.
pub(crate) fn read_ttl_form(s: &[u8], from: usize) -> Result<Piece, BadLine>
    ensures { result ≡ piece_at ttl_form s.now from }
{
    if stands(s, from, b'+') {
        return read_plus(s, from + 1);
    }
    if stands(s, from, b'-') {
        return Ok(whole(from + 1, 3));
    }
    Ok(whole(from, 0))
}

// What follows the `m` of a multiple.
pub(crate) fn read_multiple(s: &[u8], from: usize) -> Result<Piece, BadLine>
    ensures { result ≡ multiple_at s.now from }
{
    if s.len() <= from {
        return no_piece(from);
    }
    let next = from + 1;
    match s[from] {
        b's' => number_behind(s, next, b"s*", 3),
        b't' => number_behind(s, next, b"u*", 4),
        _ => no_piece(from),
    }
}
