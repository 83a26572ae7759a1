// The quirks of a line: names with commas between them, a set.
ghost use Rattle.std.specs.Prelude.{◌≡◌};
ghost use Rattle.parse_tcp.specs.RowPieces.{quirks_at, names_from};

use numerals::Piece;
use one_field::{behind, parse_quirk};
use signature_line::BadLine;

// Where the quirks end, and their bits.
#[derive(Clone, Copy)]
pub struct QuirksPiece {
    pub at: usize,
    pub bits: u32,
}

// The names after the first, each behind a comma.
#[inline(always)]
fn more_names(s: &[u8], first: Piece) -> Result<QuirksPiece, BadLine>
    ensures { result ≡ names_from s.now first }
{
    let mut bits = first.form;
    let mut at = first.at;
    while let Ok(next) = behind(s, Ok(at), b',') {
        let name = parse_quirk(s, next)?;
        bits |= name.form;
        at = name.at;
    }
    Ok(QuirksPiece { at, bits })
}

// Nothing, or names.
#[inline(always)]
pub(crate) fn parse_quirks(s: &[u8], from: usize) -> Result<QuirksPiece, BadLine>
    ensures { result ≡ quirks_at s.now from }
{
    match parse_quirk(s, from) {
        Ok(first) => more_names(s, first),
        Err(bad) if bad.offset == from => Ok(QuirksPiece { at: from, bits: 0 }),
        Err(bad) => Err(bad),
    }
}
