// What a search finds, its rank, and how long it was (document 01, "The signature list"; document 02, Wishes 3 and 6): added by the port.
#![tactic(auto)]

ghost use Rattle.std.specs.Prelude.{◌≡◌};
ghost use Rattle.found.specs.Rank.{found_of, rank_of, is_none};

use matching::{FuzzyReason, SignatureFit};

// The record that a search found: its label, its number in the list, from 0, and whether it is generic.
#[derive(Clone, Copy)]
pub struct Hit {
    pub label: u16,
    pub number: u16,
    pub generic: bool,
}

// What a search finds, with the record. Not an Option: none, exact and fuzzy are three answers, which the product never blurs.
#[derive(Clone, Copy)]
pub enum Found {
    None,
    Exact(Hit),
    Fuzzy(Hit, FuzzyReason),
}

// What a search answers: what it finds, and how many records it examined.
#[derive(Clone, Copy)]
pub struct Searched {
    pub found: Found,
    pub examined: u16,
}

pub fn is_none(fit: SignatureFit) -> bool
    ensures { result ≡ is_none fit }
{
    matches!(fit, SignatureFit::None)
}

// What is found in one record.
#[tactic(auto, unfolding(crate::specs::Rank::found_of))]
pub fn found_of(hit: Hit, fit: SignatureFit) -> Found
    ensures { result ≡ found_of hit fit }
{
    match fit {
        SignatureFit::None => Found::None,
        SignatureFit::Exact => Found::Exact(hit),
        SignatureFit::Fuzzy(reason) => Found::Fuzzy(hit, reason),
    }
}

// What does not fit has no rank, and comes last: every rank is less.
pub const UNRANKED: u8 = 255;

// The less the better. A number, as the clause has it: document 02 gives the order, and a search compares ranks with `<` and with 0.
pub fn rank_of(found: Found) -> u8
    ensures { result ≡ rank_of found }
{
    match found {
        Found::Exact(hit) if !hit.generic => 0,
        Found::Exact(_) => 1,
        Found::Fuzzy(_, _) => 2,
        Found::None => UNRANKED,
    }
}
