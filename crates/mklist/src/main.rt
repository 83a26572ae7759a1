// mklist: a keeper's file on standard input, its signature list on standard output (docs/FORMATS.md). What is refused is told on standard
// error, in words, and nothing is written. What a file means is the library's: this program moves bytes, and finds the words.
#![tactic(auto)]

ghost use Rattle.std.specs.Prelude.{◌<◌, ◌≤◌, length};

use keeper_file::LineRefusal;
use list_compiler::compile_list;
use refusals::Refusal;
use std::io::{Stderr, Stdout};
use streams::{Ending, ends_as, read_full, say, say_number, tell_cut, tell_unread, write_all};

// The most bytes of a file, and of a list: so much is a list in a bundle, and what `showlist` reads.
const MOST: usize = 65535;

// The longest signature of a line.
const LONGEST: usize = 512;

// ---- the line that is refused

// Where the line of this number starts, from 1; the file's end if it has so many no more.
fn line_start(file: &[u8], number: usize) -> usize
    ensures { result ≤ length file.now }
{
    let mut line = 1;
    for (at, byte) in file.iter().enumerate() {
        if line == number {
            return at;
        }
        if *byte == b'\n' {
            line += 1;
        }
    }
    file.len()
}

fn stands(file: &[u8], at: usize, byte: u8) -> bool {
    at < file.len() && file[at] == byte
}

// Whether a line ends at a place.
fn ends_at(file: &[u8], at: usize) -> bool {
    at >= file.len() || file[at] == b'\n' || file[at] == b'\r' && stands(file, at + 1, b'\n')
}

// Behind the digits from a place on.
fn behind_digits(file: &[u8], from: usize) -> usize
    requires { from ≤ length file.now }
    ensures { result ≤ length file.now }
{
    let digits = file[from..].iter().take_while(|byte| byte.is_ascii_digit());
    from + digits.count()
}

// How far behind a label's end the signature starts: behind the blank, and behind `g ` if that stands there.
fn signature_behind(file: &[u8], label_end: usize) -> usize
    requires { label_end < length file.now }
    ensures { result ≤ 3 }
{
    if stands(file, label_end + 1, b'g') {
        3
    } else {
        1
    }
}

// ---- words

// `'x'`, or a byte that cannot be shown so by its number.
fn say_byte(stderr: Stderr, byte: u8) {
    match byte {
        b' ' => say(stderr, b"a blank"),
        b'!'..=b'~' => say(stderr, &[b'\'', byte, b'\'']),
        _ => {
            say(stderr, b"the byte 0x");
            let _ = eprint!(stderr; "{byte:02x}");
        }
    }
}

fn say_place(stderr: Stderr, line: usize, column: usize) {
    say(stderr, b"line ");
    say_number(stderr, line);
    say(stderr, b", column ");
    say_number(stderr, column);
    say(stderr, b": ");
}

// What goes on no more at a place: the label, or the signature behind it.
fn say_part(stderr: Stderr, file: &[u8], start: usize, at: usize)
    requires { (start ≤ at) × (at < length file.now) }
{
    let label_end = behind_digits(file, start);
    if at <= label_end {
        say(stderr, b"no label goes on with ");
        say_byte(stderr, file[at]);
        return;
    }
    if at - label_end == signature_behind(file, label_end) + LONGEST {
        say(stderr, b"the signature is longer than 512 bytes");
        return;
    }
    say(stderr, b"no signature goes on with ");
    say_byte(stderr, file[at]);
}

fn say_bad(stderr: Stderr, file: &[u8], line: usize, offset: usize) {
    let start = line_start(file, line);
    let left = file.len() - start;
    if left <= offset {
        say_place(stderr, line, left + 1);
        say(stderr, b"the line ends too soon\n");
        return;
    }
    let at = start + offset;
    say_place(stderr, line, offset + 1);
    if ends_at(file, at) {
        say(stderr, b"the line ends too soon\n");
        return;
    }
    say_part(stderr, file, start, at);
    say(stderr, b"\n");
}

fn say_many(stderr: Stderr, line: usize, text: &[u8]) {
    say(stderr, b"line ");
    say_number(stderr, line);
    say(stderr, text);
}

fn say_refused(stderr: Stderr, file: &[u8], refused: LineRefusal) {
    let line = refused.line;
    match refused.refusal {
        Refusal::BadLine(offset) => say_bad(stderr, file, line, offset),
        Refusal::TooManySignatures => say_many(stderr, line, b": more than 65535 signatures\n"),
        Refusal::TooManyEntries => say_many(
            stderr,
            line,
            b": more than 32763 options in the layouts up to here\n",
        ),
        _ => say(
            stderr,
            b"mklist: the list would be longer than 65535 bytes\n",
        ),
    }
}

// ---- the program

fn compile(stdout: Stdout, stderr: Stderr, file: &[u8]) {
    let mut list = [0u8; MOST];
    match compile_list(&mut list, file) {
        Ok(size) => tell_cut(stderr, b"mklist", write_all(stdout, &list[0..size])),
        Err(refused) => say_refused(stderr, file, refused),
    }
}

fn main(rt: HostRuntime) {
    let stdin = rt.stdin();
    let stderr = rt.stderr();
    let mut file = [0u8; MOST];
    let count = read_full(stdin, &mut file);
    match ends_as(stdin, count == MOST) {
        Ending::Whole => compile(rt.stdout(), stderr, &file[0..count]),
        Ending::Longer => say(stderr, b"mklist: the file is longer than 65535 bytes\n"),
        Ending::Failed => tell_unread(stderr, b"mklist"),
    }
}
