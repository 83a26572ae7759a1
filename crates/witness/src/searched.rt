// What a search answers, as a struct of numbers.
ghost use Rattle.std.specs.Prelude.{◌≡◌};
ghost use Rattle.refusals.specs.Refusals.{number};
ghost use Rattle.witness.specs.Written.{outcome_of, plain_searched, bad_record, refused_search, plain_search};

use crate::PlainSearch;
use crate::wrote::bad_record;
use found::{Found, Searched};
use refusals::{Refusal, refusal_number};
use search::SearchRefusal;

// An answer without a reason.
fn outcome_of(outcome: u8, label: u16, number: u16, generic: u8, examined: u16) -> PlainSearch
    ensures { result ≡ outcome_of outcome label number generic examined }
{
    PlainSearch {
        added: 0,
        missing: 0,
        bad_record: 0,
        label,
        number,
        examined,
        outcome,
        refusal: 0,
        far: 0,
        hops: 0,
        generic,
    }
}

#[tactic(auto, unfolding(crate::specs::Written::plain_searched))]
fn plain_searched(searched: Searched) -> PlainSearch
    ensures { result ≡ plain_searched searched }
{
    let Searched { found, examined } = searched;
    match found {
        Found::None => outcome_of(3, 0, 0, 0, examined),
        Found::Exact(hit) => outcome_of(1, hit.label, hit.number, u8::from(hit.generic), examined),
        Found::Fuzzy(hit, reason) => PlainSearch {
            added: reason.added.bits(),
            missing: reason.missing.bits(),
            bad_record: 0,
            label: hit.label,
            number: hit.number,
            examined,
            outcome: 2,
            refusal: 0,
            far: u8::from(reason.hops.is_some()),
            hops: reason.hops.unwrap_or(0),
            generic: u8::from(hit.generic),
        },
    }
}

fn refused_search(refusal: Refusal) -> PlainSearch
    ensures { result ≡ refused_search (number refusal) (bad_record refusal) }
{
    PlainSearch {
        added: 0,
        missing: 0,
        bad_record: bad_record(refusal),
        label: 0,
        number: 0,
        examined: 0,
        outcome: 5,
        refusal: refusal_number(refusal),
        far: 0,
        hops: 0,
        generic: 0,
    }
}

#[tactic(auto, unfolding(crate::specs::Written::plain_search))]
pub(crate) fn plain_search(answer: Result<Searched, SearchRefusal>) -> PlainSearch
    ensures { result ≡ plain_search answer }
{
    match answer {
        Ok(searched) => plain_searched(searched),
        Err(why) => refused_search(why.into()),
    }
}
