// ttl.rs: what the TTL byte of a packet is taken for.
#![tactic(auto)]

ghost use Rattle.std.specs.Prelude.{◌≡◌};
ghost use Rattle.ttl.specs.Table.{class_of, each_byte, entry_of};
ghost use Rattle.ttl.specs.Ttl.{byte_of, guess_of, max_dist, reading_of};

use rows::{byte_in, table_row};
use table::{CLASSES, GUESSES};

mod rows;
mod table;

// One of four forms of a TTL reading.
#[derive(Clone, Copy)]
pub enum Ttl {
    // The byte as it was seen.
    Value(u8),
    // The byte and the hops that it is taken to have travelled.
    Distance(u8, u8),
    // A signature's guessed initial TTL; the reader never gives it.
    Guess(u8),
    // A byte that no packet should carry.
    Bad(u8),
}

// What the table holds of a TTL byte: what it is taken for, by the codes of a record's TTL form (0 Value, 1 Distance, 3 Bad), and its
// guess, which only a Distance claims.
// The class is a number: the table lies in read-only memory byte by byte (docs/DECISIONS.md, 83), and a record has the same codes.
#[derive(Clone, Copy)]
pub struct TtlEntry {
    pub class: u8,
    pub guess: u8,
}

// The most hops that are still plausible (p0f's MAX_DIST).
pub const MAX_DIST: u8 = 35;

// The constant above, which its promise holds to document 01's number.
pub fn max_dist() -> u8
    ensures { result ≡ max_dist }
{
    MAX_DIST
}

// The TTL byte of a reading, whatever its form.
pub fn observed_ttl(ttl: Ttl) -> u8
    ensures { result ≡ byte_of ttl }
{
    match ttl {
        Ttl::Value(v) => v,
        Ttl::Distance(v, _) => v,
        Ttl::Guess(v) => v,
        Ttl::Bad(v) => v,
    }
}

// The table whole: its promises hold the two constants to the rule, at every byte.
pub fn ttl_classes() -> [[u8; 8]; 32]
    ensures { result ≡ each_byte class_of }
{
    CLASSES
}

pub fn ttl_guesses() -> [[u8; 8]; 32]
    ensures { result ≡ each_byte guess_of }
{
    GUESSES
}

// The entry of a TTL byte in the table.
pub fn ttl_entry(ttl: u8) -> TtlEntry
    ensures { result ≡ entry_of ttl }
{
    let row = table_row(ttl / 8);
    let at = ttl % 8;
    TtlEntry {
        class: byte_in(row.classes, at),
        guess: byte_in(row.guesses, at),
    }
}

// The hops from the next usual initial TTL.
#[tactic(auto, unfolding(crate::specs::Table::entry_of))]
pub fn guess_distance(ttl: u8) -> u8
    ensures { result ≡ guess_of ttl }
{
    ttl_entry(ttl).guess
}

// The reading of a TTL byte, by its class in the codes of a record. That the codes are four, and that the guess is read whatever the class,
// lets the compiler make the reading without a branch.
pub fn calculate_ttl(ttl_observed: u8) -> Ttl
    ensures { result ≡ reading_of ttl_observed }
{
    let entry = ttl_entry(ttl_observed);
    match entry.class % 4 {
        0 => Ttl::Value(ttl_observed),
        1 => Ttl::Distance(ttl_observed, entry.guess),
        2 => Ttl::Guess(ttl_observed),
        _ => Ttl::Bad(ttl_observed),
    }
}
