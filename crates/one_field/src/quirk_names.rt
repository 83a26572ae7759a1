// Names of quirks that begin alike.
ghost use Rattle.std.specs.Prelude.{◌≡◌};
ghost use Rattle.one_field.specs.Places.{behind_e, behind_u, stamp_at, sign_behind};

use crate::letters::{read_word, stands};
use crate::whole;
use numerals::{Piece, no_piece};
use quirks::bits;
use signature_line::BadLine;

// `+` or `-`, behind a word.
pub(crate) fn sign_behind<const N: usize>(
    s: &[u8],
    from: usize,
    word: &[u8; N],
    plus: u32,
    minus: u32,
) -> Result<Piece, BadLine>
    ensures { result ≡ sign_behind word.now plus minus s.now from }
{
    let at = read_word(s, from, word, 0)?.at;
    if stands(s, at, b'+') {
        return Ok(whole(at + 1, plus));
    }
    read_word(s, at, b"-", minus)
}

// `cn` or `xws`: what follows an `e`.
pub(crate) fn read_behind_e(s: &[u8], from: usize) -> Result<Piece, BadLine>
    ensures { result ≡ behind_e s.now from }
{
    if stands(s, from, b'c') {
        return read_word(s, from + 1, b"n", bits::ECN);
    }
    read_word(s, from, b"xws", bits::EXCESSIVE_WINDOW_SCALING)
}

// `ptr+` or `rgf+`: what follows a `u`.
pub(crate) fn read_behind_u(s: &[u8], from: usize) -> Result<Piece, BadLine>
    ensures { result ≡ behind_u s.now from }
{
    if stands(s, from, b'p') {
        return read_word(s, from + 1, b"tr+", bits::NON_ZERO_URG);
    }
    read_word(s, from, b"rgf+", bits::URG)
}

// `s1-` or `s2+`: what follows the `t` of a timestamp's quirk.
pub(crate) fn read_stamp(s: &[u8], from: usize) -> Result<Piece, BadLine>
    ensures { result ≡ stamp_at s.now from }
{
    if !stands(s, from, b's') {
        return no_piece(from);
    }
    let next = from + 1;
    if stands(s, next, b'1') {
        return read_word(s, next + 1, b"-", bits::OWN_TIMESTAMP_ZERO);
    }
    read_word(s, next, b"2+", bits::PEER_TIMESTAMP_NON_ZERO)
}
