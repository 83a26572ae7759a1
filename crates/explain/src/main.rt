// explain: why a packet fits a record, or none. A bundle on standard input (document 01, "The bundle program"); on standard output what
// `rawlines` prints, and below the line of each SYN or SYN+ACK the record that was answered and those of the list that are nearest to it,
// with the fewest fields that fail, each with which fields hold, which are tolerated and which fail.
#![tactic(auto)]

use bundle_lines::{Answered, Below, CheckedList, Read, answer_bundle};
use nearest::write_below;
use std::io::Stdout;
use streams::Cut;

mod gates;
mod lines;
mod nearest;

// Which records are nearest, and why: below each packet's line.
#[derive(Drop)]
struct Explained {
    stdout: Stdout,
}

impl Below for Explained {
    fn write(&self, list: CheckedList, answer: Answered, reading: Read) -> Result<(), Cut> {
        write_below(self.stdout, list, answer, reading)
    }
}

fn main(rt: HostRuntime) {
    let stdout = rt.stdout();
    answer_bundle(
        rt.stdin(),
        stdout,
        rt.stderr(),
        b"explain",
        &Explained { stdout },
    );
}
