// A row of the table. The compiler lays a constant that is indexed by a variable out on the stack, at every call; a `match` on the row's
// number, each arm with a row of its own, it makes a table in read-only memory, which costs no more than comparing the TTL did
// (docs/DECISIONS.md, 83).
ghost use Rattle.std.specs.Prelude.{◌≡◌, ◌<◌, get_or};
ghost use Rattle.ttl.specs.Rows.{both_rows, rows_at, Widened};

use crate::{ttl_classes, ttl_guesses};

#[derive(Clone, Copy)]
pub(crate) struct TtlRow {
    pub(crate) classes: [u8; 8],
    pub(crate) guesses: [u8; 8],
}

fn both(classes: &[[u8; 8]; 32], guesses: &[[u8; 8]; 32], row: usize) -> TtlRow
    requires { row < 32 }
    ensures { result ≡ rows_at classes.now guesses.now row }
{
    TtlRow {
        classes: classes[row],
        guesses: guesses[row],
    }
}

#[tactic(auto, using(crate::proofs::TableLaws::picked))]
pub(crate) fn table_row(row: u8) -> TtlRow
    requires { row < 32 }
    ensures { result ≡ both_rows row }
{
    let classes = &ttl_classes();
    let guesses = &ttl_guesses();
    match row {
        0 => both(classes, guesses, 0),
        1 => both(classes, guesses, 1),
        2 => both(classes, guesses, 2),
        3 => both(classes, guesses, 3),
        4 => both(classes, guesses, 4),
        5 => both(classes, guesses, 5),
        6 => both(classes, guesses, 6),
        7 => both(classes, guesses, 7),
        8 => both(classes, guesses, 8),
        9 => both(classes, guesses, 9),
        10 => both(classes, guesses, 10),
        11 => both(classes, guesses, 11),
        12 => both(classes, guesses, 12),
        13 => both(classes, guesses, 13),
        14 => both(classes, guesses, 14),
        15 => both(classes, guesses, 15),
        16 => both(classes, guesses, 16),
        17 => both(classes, guesses, 17),
        18 => both(classes, guesses, 18),
        19 => both(classes, guesses, 19),
        20 => both(classes, guesses, 20),
        21 => both(classes, guesses, 21),
        22 => both(classes, guesses, 22),
        23 => both(classes, guesses, 23),
        24 => both(classes, guesses, 24),
        25 => both(classes, guesses, 25),
        26 => both(classes, guesses, 26),
        27 => both(classes, guesses, 27),
        28 => both(classes, guesses, 28),
        29 => both(classes, guesses, 29),
        30 => both(classes, guesses, 30),
        _ => both(classes, guesses, 31),
    }
}

fn wide(byte: u8) -> u64
    ensures { Widened byte result }
{
    byte as u64
}

// The byte at a place of a row, by a shift of the row's number: the compiler sees that the number is the row's eight bytes as they lie. A
// row that is indexed it puts on the stack first.
pub(crate) fn byte_in(row: [u8; 8], at: u8) -> u8
    requires { at < 8 }
    ensures { result ≡ get_or row at 0 }
{
    let from_7 = wide(row[7]);
    let from_6 = wide(row[6]) + 256 * from_7;
    let from_5 = wide(row[5]) + 256 * from_6;
    let from_4 = wide(row[4]) + 256 * from_5;
    let from_3 = wide(row[3]) + 256 * from_4;
    let from_2 = wide(row[2]) + 256 * from_3;
    let from_1 = wide(row[1]) + 256 * from_2;
    let word = wide(row[0]) + 256 * from_1;
    ((word >> (8 * at)) % 256) as u8
}
