// syn_options.rs, and the option walk of flow.rs: one walk, which goes on behind damaged options or stops before them, and gives their
// places.
#![tactic(auto)]

ghost use Rattle.std.specs.Prelude.{◌≡◌, ◌<◌, ◌≤◌, length};
ghost use Rattle.quirks.specs.Named.{empty};
ghost use Rattle.syn_options.specs.Stops.{walked_of, stops_at, first_known, walk_to, walk_options, read_options};
ghost use Rattle.syn_options.specs.Walk.{StepInside, start_walk, parsed_of, parse_options_raw};

use numbers::least;
use one_option::{OptionStep, Seen, later_mss, later_quirks, later_scale, option_step};
use quirks::{Quirk, QuirkSet};
use refusals::OptionsTooLong;
use tcp::Layout;

// End of Option List.
const EOL: u8 = 0;

// The most bytes that options take: a data offset of 15 words, less the header's five.
const MOST_OPTIONS: usize = 40;

// The places of damage: of the first option that runs past the end, and of the first whose length byte is 0 or 1.
#[derive(Clone, Copy)]
pub struct Places {
    pub past: Option<usize>,
    pub short: Option<usize>,
}

// Which options a walk stops before: the packet reader's before none, going on after clipping; the strict entry's before both.
#[derive(Clone, Copy)]
pub struct StopBefore {
    pub past: bool,
    pub short: bool,
}

impl StopBefore {
    // parse_options_raw.
    pub const PAST: Self = Self {
        past: true,
        short: false,
    };
}

// What a walk gives: what it says of the options, and the places of damage that it came to.
#[derive(Clone, Copy)]
pub struct OptionWalk {
    pub olayout: Layout,
    pub seen: Seen,
    // It stopped before an option.
    pub malformed: bool,
    pub places: Places,
}

// What parse_options_raw gives.
#[derive(Clone, Copy)]
pub struct ParsedTcpOptions {
    pub olayout: Layout,
    pub mss: Option<u16>,
    pub wscale: Option<u8>,
    pub malformed: bool,
}

// ---- the walk

// The option at a place of the string: it ends behind its kind byte, and within the string.
fn step_inside(options: &[u8], at: usize) -> OptionStep
    requires { at < length options.now }
    ensures { StepInside options.now at result }
{
    option_step(options, at)
}

// A place that is known stays.
fn first_place(known: Option<usize>, at: usize) -> Option<usize>
    ensures { result ≡ first_known known at }
{
    known.or(Some(at))
}

fn empty_layout() -> Layout
    ensures { result ≡ (start_walk empty).olayout }
{
    Layout {
        kinds: [0u8; 40],
        bytes: [0u8; 40],
        count: 0,
    }
}

// Joined by `&` and `|`, which take no branch.
fn stops(stop: StopBefore, step: OptionStep) -> bool
    ensures { result ≡ stops_at stop step }
{
    (stop.past & step.past) | (stop.short & step.short)
}

// The walk of at most forty bytes. Each option fills one entry of the layout, so that the entries never outnumber the bytes; its byte is 0
// already but for an end-of-options. MSS, scale and quirks are variables of their own: one struct of them is packed and unpacked at every
// turn (30 instructions). The entry is written last, which the compiler makes the least of (docs/DECISIONS.md, 89). It is a `while`: each
// option says itself where the next begins.
fn walk_part(options: &[u8], stop: StopBefore, syn: bool, quirks: QuirkSet) -> OptionWalk
    requires { length options.now ≤ 40 }
    ensures { result ≡ walk_to stop syn quirks options.now }
{
    let mut olayout = empty_layout();
    let mut count = 0;
    let mut mss = None;
    let mut wscale = None;
    let mut shown = quirks;
    let mut malformed = false;
    let mut past = None;
    let mut short = None;
    let mut at = 0;
    while at < options.len() {
        let step = step_inside(options, at);
        if step.past {
            past = first_place(past, at);
        }
        if step.short {
            short = first_place(short, at);
        }
        if stops(stop, step) {
            shown = shown.insert(Quirk::OptBad);
            malformed = true;
            break;
        }
        let start = at + 1;
        let end = step.end;
        let own = &options[start..end];
        mss = later_mss(step.kind, own, mss);
        wscale = later_scale(step.kind, own, wscale);
        shown = later_quirks(step.kind, own, syn, shown);
        olayout.kinds[count] = step.kind;
        if step.kind == EOL {
            olayout.bytes[count] = (end - start) as u8;
        }
        count += 1;
        at = end;
    }
    olayout.count = count;
    OptionWalk {
        olayout,
        seen: Seen {
            mss,
            wscale,
            quirks: shown,
        },
        malformed,
        places: Places { past, short },
    }
}

// The walk of an option string, of which no more than forty bytes are read.
pub fn walk_options(options: &[u8], stop: StopBefore, syn: bool, quirks: QuirkSet) -> OptionWalk
    ensures { result ≡ walk_options stop syn quirks options.now }
{
    let end = least(options.len(), MOST_OPTIONS);
    walk_part(&options[0..end], stop, syn, quirks)
}

// The walk of an option string by itself; refusal 8 over forty bytes.
#[tactic(auto, unfolding(crate::specs::Stops::read_options))]
pub fn read_options(
    buf: &[u8],
    stop: StopBefore,
    syn: bool,
    quirks: QuirkSet,
) -> Result<OptionWalk, OptionsTooLong>
    ensures { result ≡ read_options stop syn quirks buf.now }
{
    if MOST_OPTIONS < buf.len() {
        return Err(OptionsTooLong);
    }
    Ok(walk_options(buf, stop, syn, quirks))
}

// ---- parse_options_raw

fn parsed(walk: OptionWalk) -> ParsedTcpOptions
    ensures { result ≡ parsed_of (walked_of walk) }
{
    ParsedTcpOptions {
        olayout: walk.olayout,
        mss: walk.seen.mss,
        wscale: walk.seen.wscale,
        malformed: walk.malformed,
    }
}

// Layout, MSS and scale of an option string, up to the first option that runs past the end; refusal 8 over forty bytes.
pub fn parse_options_raw(buf: &[u8]) -> Result<ParsedTcpOptions, OptionsTooLong>
    ensures { result ≡ parse_options_raw buf.now }
{
    let walk = read_options(buf, StopBefore::PAST, false, QuirkSet::EMPTY)?;
    Ok(parsed(walk))
}
