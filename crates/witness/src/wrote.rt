// What writing a line answers, as a struct of numbers.
ghost use Rattle.std.specs.Prelude.{◌≡◌};
ghost use Rattle.witness.specs.Written.{bad_record};
ghost use Rattle.witness.specs.Wrote.{plain_wrote};

use crate::PlainWrote;
use refusals::{Refusal, list_value, refusal_number};

// The record that refusal 10 names; 0 of any other refusal.
pub(crate) fn bad_record(refusal: Refusal) -> u32
    ensures { result ≡ bad_record refusal }
{
    match refusal {
        Refusal::List(why) => (list_value(why) % 4294967296) as u32,
        _ => 0,
    }
}

#[tactic(auto, unfolding(crate::specs::Wrote::plain_wrote))]
pub(crate) fn plain_wrote(wrote: Result<usize, Refusal>) -> PlainWrote
    ensures { result ≡ plain_wrote wrote }
{
    match wrote {
        Ok(length) => PlainWrote {
            length,
            bad_record: 0,
            refusal: 0,
        },
        Err(why) => PlainWrote {
            length: 0,
            bad_record: bad_record(why),
            refusal: refusal_number(why),
        },
    }
}
