// The output of a bundle, page by page: as many lines as find room, then the program writes the page and asks for the next.
// A page is an array of one size, so that no caller can lend one in which no line finds room.
#![tactic(auto)]

ghost use Rattle.std.specs.Prelude.{◌≤◌};
ghost use Rattle.report.specs.Pages.{FilledAfter, Paged, page_size, refused_page, head_page};
ghost use Rattle.report.specs.Pages.{first_page_in, page_after_in, first_page, page_after};

use bundle::{PacketAt, check_bundle, packet_at_in};
use flow::Mode;
use lines::{put_line, put_numbered};
use numbers::be16_at;
use refusals::{Refusal, refusal_number};

pub mod lines;

// How far the output of a bundle is: the bytes of the page, and the packets that are left, by their number and the place of the
// first.
#[derive(Clone, Copy)]
pub struct Progress {
    pub filled: usize,
    pub left: usize,
    pub at: usize,
}

// The bytes of a page.
pub const PAGE: usize = 4096;

// The longest line: `synack exact 65535`, or `fuzzy`, and its end.
const LINE: usize = 19;

// The lines of the packets that are left, as long as the longest line finds room.
fn put_lines(bundle: &[u8], progress: Progress, page: &mut [u8; PAGE], mode: Mode) -> Progress
    requires { progress.filled ≤ page_size }
    ensures { FilledAfter mode page.old bundle.now progress result page.new }
{
    let mut filled = progress.filled;
    let mut at = progress.at;
    for done in 0..progress.left {
        if PAGE - filled < LINE {
            return Progress {
                filled,
                left: progress.left - done,
                at,
            };
        }
        let Some(PacketAt { answer, end }) = packet_at_in(bundle, at, mode) else {
            return Progress {
                filled,
                left: 0,
                at,
            };
        };
        filled = put_line(page, filled, answer);
        at = end;
    }
    Progress {
        filled,
        left: 0,
        at,
    }
}

// The first page of a refusal.
fn refused_page(page: &mut [u8; PAGE], refusal: Refusal) -> Progress
    ensures { Paged page.old (refused_page refusal) result page.new }
{
    let filled = put_numbered(page, 0, b"refused ", u16::from(refusal_number(refusal)));
    Progress {
        filled,
        left: 0,
        at: 0,
    }
}

// The first page of a bundle that passed its check.
fn head_page(bundle: &[u8], page: &mut [u8; PAGE], mode: Mode) -> Progress
    ensures { Paged page.old (head_page mode bundle.now) result page.new }
{
    let count = be16_at(bundle, 0);
    let filled = put_numbered(page, 0, b"packets ", count);
    let progress = Progress {
        filled,
        left: count as usize,
        at: be16_at(bundle, 2) as usize,
    };
    put_lines(bundle, progress, page, mode)
}

// The first page of a bundle's output, in any mode; `longer`: the input goes on past the bundle. A page takes a line while 19 bytes are
// left, the longest line.
#[tactic(auto, unfolding(crate::specs::Pages::first_page_in))]
pub fn first_page_in(bundle: &[u8], longer: bool, page: &mut [u8; PAGE], mode: Mode) -> Progress
    ensures { Paged page.old (first_page_in mode bundle.now longer) result page.new }
{
    if longer {
        return refused_page(page, Refusal::BundleDoesNotFit);
    }
    match check_bundle(bundle) {
        Ok(()) => head_page(bundle, page, mode),
        Err(why) => refused_page(page, why.into()),
    }
}

// The next page of a bundle's output, in any mode, after the progress that the page before it left.
#[tactic(auto, using(crate::proofs::Turns::paged))]
pub fn next_page_in(
    bundle: &[u8],
    progress: Progress,
    page: &mut [u8; PAGE],
    mode: Mode,
) -> Progress
    ensures { Paged page.old (page_after_in mode bundle.now progress) result page.new }
{
    let from = Progress {
        filled: 0,
        ..progress
    };
    put_lines(bundle, from, page, mode)
}

// ---- the plain mode, in which the program asks: public functions, which docs/ANSWERS.md names

pub fn first_page(bundle: &[u8], longer: bool, page: &mut [u8; PAGE]) -> Progress
    ensures { Paged page.old (first_page bundle.now longer) result page.new }
{
    first_page_in(bundle, longer, page, Mode::PLAIN)
}

pub fn next_page(bundle: &[u8], progress: Progress, page: &mut [u8; PAGE]) -> Progress
    ensures { Paged page.old (page_after bundle.now progress) result page.new }
{
    next_page_in(bundle, progress, page, Mode::PLAIN)
}
