// termread: a bundle on standard input, its answers on standard output (document 01, "The bundle program"). What is read and what is
// written is the library's: this program only moves bytes. What is known of a call stands in its clauses, not in a type: the gate and
// docs/ANSWERS.md hold each of these functions to its own.
#![tactic(auto)]

ghost use Rattle.std.specs.Prelude.{◌≡◌, true, ◌+◌, ◌≤◌, length, OnOk};
ghost use Rattle.report.specs.Pages.{output_of_input};
ghost use Rattle.termread.specs.Moved.{clamp_len};
ghost use Rattle.termread.specs.Came.{Came, ReadAt, AgainAt, EndsAs, InputCame, InputEnds};
ghost use Rattle.termread.specs.Reached.{Reached};
ghost use Rattle.termread.specs.Sending.{Follows, CutAt};

use report::{PAGE, Progress, first_page, next_page};
use std::io::{ErrorKind, Read, Stderr, Stdin, Stdout, Write};
use std::time::{Clock, Duration};
use std::{io, thread};

// More pages than any output has: each but the last holds a line, and a bundle at most 65,535 packets.
const PAGES: usize = 65536;

// How often a call is tried before the program gives up: a loop has to end. As many pauses take 34 years.
const PATIENCE: usize = 1099511627776;

// Waits for a millisecond.
fn pause(clock: &impl Clock) {
    thread::sleep(clock, Duration::from_millis(1));
}

// Whether a call that failed may be tried again: it was interrupted, or it would have had to wait, which is done here.
fn goes_on(clock: &impl Clock, error: io::Error) -> bool {
    match error.kind() {
        ErrorKind::Interrupted => true,
        ErrorKind::WouldBlock => {
            pause(clock);
            true
        }
        _ => false,
    }
}

// How many bytes of a text a call moved that was handed it, by what it answered: none if it failed.
fn count_of(got: io::Result<usize>, text: &[u8]) -> usize
    ensures in_bounds { result ≤ length text.now }
    ensures value { result ≡ clamp_len got (length text.now) }
{
    match got {
        Ok(n) => n.min(text.len()),
        Err(_) => 0,
    }
}

// One read, the program's only one. It is told how many bytes came before, and what the last read behind these answered (an error if
// there was none): only one that failed is made again. What it answers is `read`'s answer.
fn read_once(
    mut stdin: Stdin,
    count: usize,
    last: io::Result<usize>,
    buffer: &mut [u8],
) -> io::Result<usize>
    requires came { Came count }
    requires again_at { AgainAt last true }
    requires in_bounds { 1 ≤ length buffer.old }
    ensures { ReadAt count (length buffer.old) result }
{
    stdin.read(buffer)
}

// Whether a read is made again: it failed, and another try may help.
fn reads_again(clock: &impl Clock, got: io::Result<usize>) -> bool
    ensures { AgainAt got result }
{
    match got {
        Ok(_) => false,
        Err(error) => goes_on(clock, error),
    }
}

// A read, made again as long as that may help: what the last one answered.
fn read_some(stdin: Stdin, clock: &impl Clock, count: usize, buffer: &mut [u8]) -> io::Result<usize>
    requires came { Came count }
    requires in_bounds { 1 ≤ length buffer.old }
    ensures { ReadAt count (length buffer.old) result }
{
    let none = Err(io::Error::from(ErrorKind::Interrupted));
    let mut got = read_once(stdin, count, none, buffer);
    for _ in 1..PATIENCE {
        if !reads_again(clock, got) {
            break;
        }
        got = read_once(stdin, count, got, buffer);
    }
    got
}

// How the reading of the input ended. (Not the type of `streams`, which reads and writes too: the gate holds this crate alone to one line
// that reads and one that writes.)
#[derive(Clone, Copy)]
enum Ending {
    // The input ended.
    Whole,
    // The buffer is full, and the input goes on.
    Longer,
    // A read failed.
    Failed,
}

// What came of the input: so many bytes, and how it ends behind them.
#[derive(Clone, Copy)]
struct Input {
    count: usize,
    ending: Ending,
}

// Whether the input goes on where the buffer is full: one byte more tells.
fn after_full(stdin: Stdin, clock: &impl Clock, count: usize) -> Ending
    requires { Came count }
    ensures { EndsAs result count count }
{
    let mut one = [0u8; 1];
    match read_some(stdin, clock, count, &mut one) {
        Ok(0) => Ending::Whole,
        Ok(_) => Ending::Longer,
        Err(_) => Ending::Failed,
    }
}

// Reads until the buffer is full, the input ends or a read fails. (A `loop`: each turn goes as far as the read says.)
fn read_input(stdin: Stdin, clock: &impl Clock, buffer: &mut [u8]) -> Input
    ensures { InputCame result.count result.ending (length buffer.new) }
{
    let mut count = 0;
    let ending = loop {
        if count == buffer.len() {
            break after_full(stdin, clock, count);
        }
        match read_some(stdin, clock, count, &mut buffer[count..]) {
            Ok(0) => break Ending::Whole,
            Ok(more) => count += more,
            Err(_) => break Ending::Failed,
        }
    };
    Input { count, ending }
}

// One write, the program's only one to standard output. It is handed the output from a place on that the writes before it reached, and what
// it answers, which is `write`'s answer, says how far the output is then taken.
fn write_once(
    mut stdout: Stdout,
    bundle: &[u8],
    longer: bool,
    taken: usize,
    text: &[u8],
) -> io::Result<usize>
    requires reached { Reached taken }
    requires follows { Follows (output_of_input bundle.now longer) taken text.now }
    ensures { Reached (taken + clamp_len result (length text.now)) }
{
    stdout.write(text)
}

// Whether the output ends at what a write of a text that is not empty answered: nothing was taken, and another try is of no use.
fn ends_at(clock: &impl Clock, got: io::Result<usize>) -> bool
    ensures { CutAt got result }
{
    match got {
        Ok(n) => n == 0,
        Err(error) => !goes_on(clock, error),
    }
}

// The error of a text that was not taken whole. (Not that of `streams`, as above.)
struct Cut;

// Writes until all of the text is taken or the output is cut. (The bound is one page more than PAGES: no sum wraps.)
fn send(
    stdout: Stdout,
    clock: &impl Clock,
    bundle: &[u8],
    longer: bool,
    taken: usize,
    text: &[u8],
) -> Result<(), Cut>
    requires reached { Reached taken }
    requires follows { Follows (output_of_input bundle.now longer) taken text.now }
    requires text_bound { taken + length text.now ≤ 268439552 }
    ensures { OnOk result (Reached (taken + length text.now)) }
{
    let mut from = 0;
    for _ in 0..PATIENCE {
        if from == text.len() {
            return Ok(());
        }
        let rest = &text[from..];
        let got = write_once(stdout, bundle, longer, taken + from, rest);
        if ends_at(clock, got) {
            break;
        }
        from += count_of(got, rest);
    }
    Err(Cut)
}

// The pages of the output, each behind the one before.
fn write_output(stdout: Stdout, clock: &impl Clock, bundle: &[u8], longer: bool) -> Result<(), Cut>
    requires { InputEnds longer (length bundle.now) }
    ensures { OnOk result (Reached (length (output_of_input bundle.now longer))) }
{
    let mut page = [0u8; PAGE];
    let mut progress = first_page(bundle, longer, &mut page);
    let mut taken = 0;
    for _ in 0..PAGES {
        let filled = progress.filled;
        send(stdout, clock, bundle, longer, taken, &page[0..filled])?;
        if progress.left == 0 {
            return Ok(());
        }
        taken += filled;
        progress = next_page(bundle, progress, &mut page);
    }
    Err(Cut)
}

// A message, on standard error. One that is not taken is lost.
fn say(mut stderr: Stderr, text: &[u8]) {
    let _ = stderr.write_all(text);
}

fn tell(stderr: Stderr, written: Result<(), Cut>) {
    if let Err(Cut) = written {
        say(
            stderr,
            b"termread: standard output could not be written, and ends early\n",
        );
    }
}

// The answers to what came, by how the input ends behind it.
fn answer(stdout: Stdout, stderr: Stderr, clock: &impl Clock, bundle: &[u8], ending: Ending)
    requires { EndsAs ending (length bundle.now) 65535 }
{
    match ending {
        Ending::Whole => tell(stderr, write_output(stdout, clock, bundle, false)),
        Ending::Longer => tell(stderr, write_output(stdout, clock, bundle, true)),
        Ending::Failed => say(stderr, b"termread: standard input could not be read\n"),
    }
}

fn main(rt: HostRuntime) {
    let mut buffer = [0u8; 65535];
    let input = read_input(rt.stdin(), &rt, &mut buffer);
    answer(
        rt.stdout(),
        rt.stderr(),
        &rt,
        &buffer[0..input.count],
        input.ending,
    );
}
