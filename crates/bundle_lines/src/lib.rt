// What `rawlines` and `explain` share: a bundle on standard input (document 01, "The bundle program"), and on standard output what
// `termread` prints, behind each packet's answer its raw line, or `-` where nothing was seen (document 02, Wish 7), and below it what the
// program adds. What the lines say is the library's; what is answered is the system's, so nothing here promises an equation
// (docs/ANSWERS.md, "Exceptions").
#![tactic(auto)]

ghost use Rattle.std.specs.Prelude.{◌≡◌, Ok};
ghost use Rattle.siglist.specs.List.{check_list};
ghost use Rattle.bundle.specs.Bundle.{check_bundle, list_of};

use bundle::{PacketAt, check_bundle, packet_at};
use flow::Reading;
use numbers::be16_at;
use packet_answer::PacketAnswer;
use packet_line::{put_packet, reading_at};
use refusals::{PacketRefusal, Refusal, refusal_number};
use report::lines::put_numbered;
use siglist::{SigList, read_header};
use std::io::{Stderr, Stdin, Stdout};
use streams::{Cut, Ending, ends_as, read_full, tell_cut, tell_unread, write_all};

// A list that passed its check.
#[derive(Clone, Copy)]
pub struct CheckedList<'a> {
    pub list: SigList<'a>,
    pub ghost good: { check_list list.bytes.now ≡ Ok tt },
}

// What is answered of a packet, and what is read of it.
pub type Answered = Result<PacketAnswer, PacketRefusal>;

pub type Read = Result<Reading, PacketRefusal>;

// What a program adds below a packet's line. (A trait, and no closure: of a closure each function here would ask, by a `requires`, that it
// may be called.)
pub trait Below {
    fn write(&self, list: CheckedList, answer: Answered, reading: Read) -> Result<(), Cut>;
}

// The most bytes of a bundle.
const MOST: usize = 65535;

// The longest line: `synack exact 65535`, or `fuzzy`, a blank, a raw line, and the line's end.
const LINE: usize = 452;

// The packets' lines, below each what the program adds.
fn write_packets<B: Below>(
    stdout: Stdout,
    bundle: &[u8],
    list: CheckedList,
    below: &B,
) -> Result<(), Cut> {
    let mut line = [0u8; LINE];
    let mut at = be16_at(bundle, 2) as usize;
    for _ in 0..be16_at(bundle, 0) {
        let Some(PacketAt { answer, end }) = packet_at(bundle, at) else {
            return Ok(());
        };
        let reading = reading_at(bundle, at, end);
        let filled = put_packet(&mut line, 0, answer, reading);
        write_all(stdout, &line[0..filled])?;
        below.write(list, answer, reading)?;
        at = end;
    }
    Ok(())
}

// A line of a word and a number.
fn write_numbered(stdout: Stdout, word: &[u8], n: u16) -> Result<(), Cut> {
    let mut line = [0u8; LINE];
    let filled = put_numbered(&mut line, 0, word, n);
    write_all(stdout, &line[0..filled])
}

fn write_refused(stdout: Stdout, refusal: Refusal) -> Result<(), Cut> {
    write_numbered(stdout, b"refused ", refusal_number(refusal) as u16)
}

// The list's bytes.
fn list_of<'a>(bundle: &'a [u8]) -> &'a [u8]
    requires { check_bundle bundle.now ≡ Ok tt }
    ensures { result.now ≡ list_of bundle.now }
{
    let start = be16_at(bundle, 6) as usize;
    let end = start + be16_at(bundle, 4) as usize;
    &bundle[start..end]
}

// The lines of a bundle that passed its check.
fn write_good<B: Below>(stdout: Stdout, bundle: &[u8], below: &B) -> Result<(), Cut>
    requires { check_bundle bundle.now ≡ Ok tt }
{
    let bytes = list_of(bundle);
    let Some(areas) = read_header(bytes) else {
        return Ok(());
    };
    let list = SigList { bytes, areas };
    write_numbered(stdout, b"packets ", be16_at(bundle, 0))?;
    write_packets(stdout, bundle, CheckedList { list }, below)
}

// The lines of any bundle. What the program adds is handed a list that passed its check, a packet's answer, and its reading.
fn write_bundle<B: Below>(stdout: Stdout, bundle: &[u8], below: &B) -> Result<(), Cut> {
    match check_bundle(bundle) {
        Ok(()) => write_good(stdout, bundle, below),
        Err(refusal) => write_refused(stdout, refusal.into()),
    }
}

// What a program of this name does.
pub fn answer_bundle<B: Below>(
    stdin: Stdin,
    stdout: Stdout,
    stderr: Stderr,
    name: &[u8],
    below: &B,
) {
    let mut buffer = [0u8; MOST];
    let count = read_full(stdin, &mut buffer);
    match ends_as(stdin, count == MOST) {
        Ending::Whole => tell_cut(stderr, name, write_bundle(stdout, &buffer[..count], below)),
        Ending::Longer => tell_cut(
            stderr,
            name,
            write_refused(stdout, Refusal::BundleDoesNotFit),
        ),
        Ending::Failed => tell_unread(stderr, name),
    }
}
