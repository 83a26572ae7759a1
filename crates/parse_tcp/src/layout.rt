// The layout of a line: entries with commas between them, at most 40.
ghost use Rattle.std.specs.Prelude.{◌≡◌};
ghost use Rattle.parse_tcp.specs.RowPieces.{layout_at, kept_from, kind_byte, rest_byte};

use numerals::Piece;
use one_field::{behind, parse_tcp_option};
use signature_line::BadLine;
use tcp::Layout;

// Where a layout ends, and its entries.
#[derive(Clone, Copy)]
pub struct LayoutPiece {
    pub at: usize,
    pub layout: Layout,
}

// The option's kind; 6 stands for the kinds without a name, whose number is the kind.
#[tactic(auto, unfolding(signature_line::specs::Meaning::kind_said))]
fn entry_kind(entry: Piece) -> u8
    ensures { result ≡ kind_byte entry }
{
    if entry.form == 6 {
        return (entry.number % 256) as u8;
    }
    (entry.form % 256) as u8
}

// The bytes left after kind 0.
#[tactic(auto, unfolding(signature_line::specs::Meaning::byte_said))]
fn entry_byte(entry: Piece) -> u8
    ensures { result ≡ rest_byte entry }
{
    if entry.form == 0 {
        return (entry.number % 256) as u8;
    }
    0
}

// The entries after the first, each behind a comma. Inlined with its caller, so that the arrays are not copied on the way.
#[inline(always)]
fn more_entries(s: &[u8], first: Piece) -> Result<LayoutPiece, BadLine>
    ensures { result ≡ kept_from s.now first }
{
    let mut kinds = [0u8; 40];
    let mut bytes = [0u8; 40];
    kinds[0] = entry_kind(first);
    bytes[0] = entry_byte(first);
    let mut at = first.at;
    for count in 1..40 {
        let Ok(next) = behind(s, Ok(at), b',') else {
            return Ok(LayoutPiece {
                at,
                layout: Layout {
                    kinds,
                    bytes,
                    count,
                },
            });
        };
        let entry = parse_tcp_option(s, next)?;
        kinds[count] = entry_kind(entry);
        bytes[count] = entry_byte(entry);
        at = entry.at;
    }
    Ok(LayoutPiece {
        at,
        layout: Layout {
            kinds,
            bytes,
            count: 40,
        },
    })
}

// Nothing, or entries.
#[inline(always)]
pub(crate) fn parse_olayout(s: &[u8], from: usize) -> Result<LayoutPiece, BadLine>
    ensures { result ≡ layout_at s.now from }
{
    match parse_tcp_option(s, from) {
        Ok(first) => more_entries(s, first),
        Err(bad) if bad.offset == from => Ok(LayoutPiece {
            at: bad.offset,
            layout: Layout {
                kinds: [0; 40],
                bytes: [0; 40],
                count: 0,
            },
        }),
        Err(bad) => Err(bad),
    }
}
