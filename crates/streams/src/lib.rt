// What the programs beside termread share: how their input ended, a text or a message written whole. What is answered is the system's, so
// nothing here promises an equation (docs/ANSWERS.md, "Exceptions"). Streams that do not wait are not tried again: a call that would have
// to wait has failed.
#![tactic(auto)]

ghost use Rattle.std.specs.Prelude.{◌≤◌, length};
ghost use Rattle.streams.specs.Ends.{LongerIfFull};

use std::io::{Read, Stderr, Stdin, Stdout, Write};

// How the input ends behind what was read.
#[derive(Clone, Copy)]
pub enum Ending {
    Whole,
    // The buffer is full, and the input goes on.
    Longer,
    // A read failed.
    Failed,
}

// The error of a text that standard output did not take whole: the output ends early.
#[derive(Clone, Copy)]
pub struct Cut;

// Reads until the buffer is full, the input ends or a read fails: how many bytes came. (A `while`: each turn goes as far as the read says.
// `read_exact` of the library does not say how many bytes came.)
pub fn read_full(mut stdin: Stdin, buffer: &mut [u8]) -> usize
    ensures { result ≤ length buffer.new }
{
    let mut count = 0;
    while count < buffer.len() {
        match stdin.read(&mut buffer[count..]) {
            Ok(0) | Err(_) => break,
            Ok(more) => count += more,
        }
    }
    count
}

// What a reading that stops early is: one read more tells whether the input ended, or a read failed before.
pub fn ends_as(mut stdin: Stdin, full: bool) -> Ending
    ensures { LongerIfFull full result }
{
    let mut one = [0u8; 1];
    match stdin.read(&mut one) {
        Ok(0) => Ending::Whole,
        Ok(_) if full => Ending::Longer,
        Ok(_) | Err(_) => Ending::Failed,
    }
}

// Writes until all of a text is taken, or a write takes nothing or fails. (A `while`: `write_all` of the library tries a write again that
// was interrupted; here it has failed, as README says.)
pub fn write_all(mut stdout: Stdout, text: &[u8]) -> Result<(), Cut> {
    let mut rest = text;
    while !rest.is_empty() {
        match stdout.write(rest) {
            Ok(0) | Err(_) => return Err(Cut),
            Ok(more) => rest = &rest[more..],
        }
    }
    Ok(())
}

// A message, on standard error. One that is not taken is lost.
pub fn say(mut stderr: Stderr, text: &[u8]) {
    let _ = stderr.write_all(text);
}

// A number of it.
pub fn say_number(stderr: Stderr, n: usize) {
    let _ = eprint!(stderr; "{n}");
}

// What a program of this name says if its output was not taken whole.
pub fn tell_cut(stderr: Stderr, name: &[u8], written: Result<(), Cut>) {
    if let Err(Cut) = written {
        say(stderr, name);
        say(
            stderr,
            b": standard output could not be written, and ends early\n",
        );
    }
}

// And if its input failed.
pub fn tell_unread(stderr: Stderr, name: &[u8]) {
    say(stderr, name);
    say(stderr, b": standard input could not be read\n");
}
