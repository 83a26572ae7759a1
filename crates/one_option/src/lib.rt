// One option of a TCP header: where it ends, and what it says of MSS, scale and quirks (syn_options.rs, flow.rs).
#![tactic(auto)]

ghost use Rattle.std.specs.Prelude.{◌≡◌, true, false};
ghost use Rattle.basis.specs.Bytes.{any_nonzero};
ghost use Rattle.one_option.specs.Options.{step_of};
ghost use Rattle.one_option.specs.See.{later_mss, later_scale, later_quirks};

use numbers::{be16_at, be32, byte_at};
use quirks::{Quirk, QuirkSet};

// The option kinds that are read.
const EOL: u8 = 0;

const NOP: u8 = 1;

const MSS: u8 = 2;

const WSCALE: u8 = 3;

const TIMESTAMPS: u8 = 8;

// What the options have said so far, the layout apart.
#[derive(Clone, Copy)]
pub struct Seen {
    pub mss: Option<u16>,
    pub wscale: Option<u8>,
    pub quirks: QuirkSet,
}

// One option of a string, in places of the string.
#[derive(Clone, Copy)]
pub struct OptionStep {
    pub kind: u8,
    // Where the next option begins: behind its last byte, at the string's end at most.
    pub end: usize,
    // It runs past the end.
    pub past: bool,
    // Its length byte is 0 or 1.
    pub short: bool,
}

// ---- one step

fn sound_step(kind: u8, end: usize) -> OptionStep
    ensures { result ≡ record { kind = kind; end = end; past = false; short = false } }
{
    OptionStep {
        kind,
        end,
        past: false,
        short: false,
    }
}

// It runs past the end of so many bytes, and is clipped to it.
fn past_step(kind: u8, all: usize) -> OptionStep
    ensures { result ≡ record { kind = kind; end = all; past = true; short = false } }
{
    OptionStep {
        kind,
        end: all,
        past: true,
        short: false,
    }
}

// The option at a place, past the end an end-of-options. All is kept in places of the whole string: a turn of a walk adds once. Tests are
// joined by `&`, which takes no branch.
#[tactic(auto, using(crate::proofs::Options::inside_nonzero))]
pub fn option_step(options: &[u8], at: usize) -> OptionStep
    ensures { result ≡ step_of options.now at }
{
    let all = options.len();
    let kind = byte_at(options, at);
    if kind == EOL {
        return sound_step(kind, all);
    }
    let start = at + 1;
    if kind == NOP {
        return sound_step(kind, start);
    }
    let length = byte_at(options, start) as usize;
    let end = at + length;
    if (1 < length) & (end <= all) {
        return sound_step(kind, end);
    }
    if (start < all) & (length < 2) {
        return OptionStep {
            kind,
            end: start + 1,
            past: false,
            short: true,
        };
    }
    past_step(kind, all)
}

// ---- what it says

// Some byte is not 0.
fn any_nonzero(s: &[u8]) -> bool
    ensures { result ≡ any_nonzero s.now }
{
    s.iter().any(|b| *b != 0)
}

// The MSS after one option more: a later one replaces an earlier one only if its data suffices.
#[tactic(auto, using(crate::proofs::See::no_mss, crate::proofs::See::short_mss, crate::proofs::See::enough_mss))]
pub fn later_mss(kind: u8, own: &[u8], mss: Option<u16>) -> Option<u16>
    ensures { result ≡ later_mss mss (record { kind = kind; own = own.now }) }
{
    if kind == MSS && 2 < own.len() {
        Some(be16_at(own, 1))
    } else {
        mss
    }
}

// The scale, in the same way.
#[tactic(auto, using(crate::proofs::See::no_scale, crate::proofs::See::short_scale, crate::proofs::See::enough_scale))]
pub fn later_scale(kind: u8, own: &[u8], wscale: Option<u8>) -> Option<u8>
    ensures { result ≡ later_scale wscale (record { kind = kind; own = own.now }) }
{
    if kind == WSCALE && 1 < own.len() {
        Some(own[1])
    } else {
        wscale
    }
}

#[tactic(auto, using(crate::proofs::See::short_scaling, crate::proofs::See::enough_scaling))]
fn scale_quirks(own: &[u8], syn: bool, quirks: QuirkSet) -> QuirkSet
    ensures { result ≡ later_quirks syn quirks (record { kind = 3; own = own.now }) }
{
    if 1 < own.len() {
        quirks.add_if(14 < own[1], Quirk::ExcessiveWindowScaling)
    } else {
        quirks
    }
}

#[tactic(auto, using(crate::proofs::See::no_stamps, crate::proofs::See::own_stamp, crate::proofs::See::both_stamps))]
fn stamp_quirks(own: &[u8], syn: bool, before: QuirkSet) -> QuirkSet
    ensures { result ≡ later_quirks syn before (record { kind = 8; own = own.now }) }
{
    if own.len() < 5 {
        return before;
    }
    let own_stamp = be32(be16_at(own, 1), be16_at(own, 3));
    let quirks = before.add_if(own_stamp == 0, Quirk::OwnTimestampZero);
    if own.len() < 9 {
        return quirks;
    }
    let peer_stamp = be32(be16_at(own, 5), be16_at(own, 7));
    quirks.add_if(syn & (peer_stamp != 0), Quirk::PeerTimestampNonZero)
}

// The quirks after one option more.
#[tactic(auto, using(crate::proofs::See::last_quirks, crate::proofs::See::other_quirks))]
pub fn later_quirks(kind: u8, own: &[u8], syn: bool, quirks: QuirkSet) -> QuirkSet
    ensures { result ≡ later_quirks syn quirks (record { kind = kind; own = own.now }) }
{
    match kind {
        TIMESTAMPS => stamp_quirks(own, syn, quirks),
        WSCALE => scale_quirks(own, syn, quirks),
        EOL => quirks.add_if(any_nonzero(own), Quirk::TrailinigNonZero),
        _ => quirks,
    }
}
