// Words, letter by letter.
ghost use Rattle.std.specs.Prelude.{◌≡◌, ◌&&◌, eqb, ltb, length};
ghost use Rattle.basis.specs.Bytes.{byte_at};
ghost use Rattle.one_field.specs.Places.{word_at};

use crate::{byte_behind, whole};
use numerals::Piece;
use signature_line::BadLine;

// A byte stands at a place.
pub(crate) fn stands(s: &[u8], at: usize, byte: u8) -> bool
    ensures { result ≡ (ltb at (length s.now) && eqb (byte_at s.now at) byte) }
{
    at < s.len() && s[at] == byte
}

// A word; where a letter of it does not stand, no line goes on. Its length is a parameter: so each word is read as fast as its letters one
// by one (docs/DECISIONS.md, 76).
pub(crate) fn read_word<const N: usize>(
    s: &[u8],
    from: usize,
    word: &[u8; N],
    form: u32,
) -> Result<Piece, BadLine>
    ensures { result ≡ word_at word.now form s.now from }
{
    let mut at = from;
    for &byte in word {
        at = byte_behind(s, at, byte)?;
    }
    Ok(whole(at, form))
}
