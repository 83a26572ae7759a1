// showlist: a signature list on standard input, on standard output the keeper's file that says it, a line a record (docs/FORMATS.md). A
// list that is refused is told on standard error, and nothing is written. What a record's line is is the library's.
#![tactic(auto)]

use file_writer::{FILE_LINE, put_shown};
use refusals::ListRefusal;
use siglist::{check_list, read_header};
use std::io::{Stderr, Stdout};
use streams::{Cut, Ending, ends_as, read_full, say, say_number, tell_cut, tell_unread, write_all};

// The most bytes of a list that is read.
const MOST: usize = 65535;

// The lines of so many records.
fn write_records(stdout: Stdout, list: &[u8], count: u16) -> Result<(), Cut> {
    let mut line = [0u8; FILE_LINE];
    for i in 0..count {
        let filled = put_shown(&mut line, 0, list, i as usize);
        write_all(stdout, &line[0..filled])?;
    }
    Ok(())
}

fn write_good(stdout: Stdout, list: &[u8]) -> Result<(), Cut> {
    match read_header(list) {
        Some(areas) => write_records(stdout, list, areas.records),
        None => Ok(()),
    }
}

// Records are counted from 0, as everywhere.
fn say_refused(stderr: Stderr, refusal: ListRefusal) {
    match refusal {
        ListRefusal::DoesNotFit => say(
            stderr,
            b"showlist: this is no signature list: its header or its areas do not fit\n",
        ),
        ListRefusal::BadRecord(index) => {
            say(stderr, b"showlist: record ");
            say_number(stderr, index);
            say(
                stderr,
                b" of the list, counted from 0, is not well formed\n",
            );
        }
    }
}

fn show(stdout: Stdout, stderr: Stderr, list: &[u8]) {
    match check_list(list) {
        Ok(()) => tell_cut(stderr, b"showlist", write_good(stdout, list)),
        Err(refusal) => say_refused(stderr, refusal),
    }
}

fn main(rt: HostRuntime) {
    let stdin = rt.stdin();
    let stderr = rt.stderr();
    let mut list = [0u8; MOST];
    let count = read_full(stdin, &mut list);
    match ends_as(stdin, count == MOST) {
        Ending::Whole => show(rt.stdout(), stderr, &list[0..count]),
        Ending::Longer => say(stderr, b"showlist: the list is longer than 65535 bytes\n"),
        Ending::Failed => tell_unread(stderr, b"showlist"),
    }
}
