// A walk over an option string, as a struct of numbers.
ghost use Rattle.std.specs.Prelude.{◌≡◌};
ghost use Rattle.witness.specs.Walked.{stop_of, plain_walk};

use crate::PlainWalk;
use refusals::{OptionsTooLong, refusal_number};
use syn_options::{OptionWalk, StopBefore};

pub(crate) fn stop_of(bits: u8) -> StopBefore
    ensures { result ≡ stop_of bits }
{
    StopBefore {
        past: bits % 2 == 1,
        short: bits / 2 % 2 == 1,
    }
}

#[tactic(auto, unfolding(crate::specs::Walked::plain_walk))]
pub(crate) fn plain_walk(read: Result<OptionWalk, OptionsTooLong>) -> PlainWalk
    ensures { result ≡ plain_walk read }
{
    match read {
        Ok(walk) => PlainWalk {
            count: walk.olayout.count,
            past_at: walk.places.past.unwrap_or(0),
            short_at: walk.places.short.unwrap_or(0),
            quirks: walk.seen.quirks.bits(),
            mss: walk.seen.mss.unwrap_or(0),
            refusal: 0,
            malformed: walk.malformed,
            has_past: u8::from(walk.places.past.is_some()),
            has_short: u8::from(walk.places.short.is_some()),
            has_mss: u8::from(walk.seen.mss.is_some()),
            has_wscale: u8::from(walk.seen.wscale.is_some()),
            wscale: walk.seen.wscale.unwrap_or(0),
            kinds: walk.olayout.kinds,
            bytes: walk.olayout.bytes,
        },
        Err(why) => PlainWalk {
            count: 0,
            past_at: 0,
            short_at: 0,
            quirks: 0,
            mss: 0,
            refusal: refusal_number(why.into()),
            malformed: false,
            has_past: 0,
            has_short: 0,
            has_mss: 0,
            has_wscale: 0,
            wscale: 0,
            kinds: [0; 40],
            bytes: [0; 40],
        },
    }
}
