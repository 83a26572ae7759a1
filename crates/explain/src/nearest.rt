// The record that was answered, and the records of a list that are nearest to a packet, those with the fewest fields that fail, written
// below its line.
ghost use Rattle.std.specs.Prelude.{◌≡◌, ◌<◌};
ghost use Rattle.explain.specs.Gating.{fails_at};

use crate::gates::{Compared, failing, row_of};
use crate::lines::put_explained;
use bundle_lines::{Answered, CheckedList, Read};
use flow::Reading;
use found::Found;
use matching::features_of;
use packet_answer::PacketAnswer;
use std::io::Stdout;
use streams::{Cut, write_all};
use text::{put_decimal, put_word};

// The longest line: a number and a label of five digits each, `generic`, the nine names, and the longest signature line.
const LINE: usize = 552;

// So many records are shown beside the one that was answered.
const SHOWN: usize = 5;

// The number of the record that was answered.
fn answered_number(answer: Answered) -> Option<u16> {
    let Ok(PacketAnswer::Opening(_, searched)) = answer else {
        return None;
    };
    match searched.found {
        Found::Exact(hit) | Found::Fuzzy(hit, _) => Some(hit.number),
        Found::None => None,
    }
}

// So many more are as near as those that are shown.
fn write_more(stdout: Stdout, more: u16) -> Result<(), Cut> {
    let mut line = [0u8; LINE];
    let number = put_word(&mut line, 0, b"  and ");
    let behind = put_decimal(&mut line, number, more);
    let filled = put_word(&mut line, behind, b" more fail as few\n");
    write_all(stdout, &line[0..filled])
}

impl Compared<'_> {
    // How many fields of record i fail.
    fn failing_at(&self, i: u16) -> usize
        requires { i < self.now.passed.list.areas.records }
        ensures { result ≡ fails_at self.now.seen self.now.layout.kinds self.now.layout.bytes self.now.passed.list.bytes.now i }
    {
        failing(&row_of(self.gates_at(i)))
    }

    // The fewest fields that fail.
    fn fewest(&self) -> usize {
        (0..self.passed.list.areas.records)
            .map(|i| self.failing_at(i))
            .min()
            .unwrap_or(9)
    }

    fn write_explained(&self, stdout: Stdout, i: u16) -> Result<(), Cut>
        requires { i < self.now.passed.list.areas.records }
    {
        let mut line = [0u8; LINE];
        let filled = put_explained(&mut line, self.gates_at(i), self.passed.list, i);
        write_all(stdout, &line[0..filled])
    }

    // The records of which so many fields fail, but for the one that was answered, which is shown before: the first five, and how many more
    // there are. (Tried as a chain of filter, take and count: that each lies within the list did not close.)
    fn write_chosen(&self, stdout: Stdout, least: usize, answered: Option<u16>) -> Result<(), Cut> {
        let mut found = 0;
        for i in 0..self.passed.list.areas.records {
            if answered != Some(i) && self.failing_at(i) == least {
                if found < SHOWN {
                    self.write_explained(stdout, i)?;
                }
                found += 1;
            }
        }
        if found <= SHOWN {
            return Ok(());
        }
        write_more(stdout, (found - SHOWN) as u16)
    }

    // The record that was answered, if one was, and the nearest of the others.
    fn write_nearest(&self, stdout: Stdout, answered: Option<u16>) -> Result<(), Cut> {
        if let Some(i) = answered
            && i < self.passed.list.areas.records
        {
            self.write_explained(stdout, i)?;
        }
        self.write_chosen(stdout, self.fewest(), answered)
    }
}

// Below the line of a SYN or SYN+ACK.
pub(crate) fn write_below(
    stdout: Stdout,
    passed: CheckedList,
    answer: Answered,
    reading: Read,
) -> Result<(), Cut> {
    let Ok(Reading::Opening(_, observation)) = reading else {
        return Ok(());
    };
    let seen = features_of(observation);
    let layout = observation.olayout;
    Compared {
        seen,
        layout,
        passed,
    }
    .write_nearest(stdout, answered_number(answer))
}
