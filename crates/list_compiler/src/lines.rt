// The signature lines of a file, one after the other: what each pass over a file goes by.
ghost use Rattle.std.specs.Prelude.{◌+◌, ◌≤◌, length};

use keeper_file::LineRefusal;
use keeper_line::kept_at;
use refusals::Refusal;
use signature_line::{BadLine, SignatureRead};

// A signature line: its number among all lines of its file, from 1, and what was read of it.
#[derive(Clone, Copy)]
pub(crate) struct Line {
    pub(crate) number: usize,
    pub(crate) read: Result<SignatureRead, BadLine>,
}

impl Line {
    ghost use Rattle.std.specs.Prelude.{◌≡◌};
    ghost use Rattle.keeper_file.specs.KeptReader.{meaning_read};

    // How many layout entries it has: none, if it is refused.
    #[tactic(auto, unfolding(signature_line::specs::Meaning::layout_of))]
    pub(crate) fn entries(self) -> usize
        ensures { result ≡ (meaning_read self.read).layout.count }
    {
        match self.read {
            Ok(read) => read.layout.count,
            Err(_) => 0,
        }
    }

    // Why its file is refused.
    pub(crate) fn refused(self, refusal: Refusal) -> LineRefusal
        ensures { result ≡ record { line = self.number; refusal = refusal } }
    {
        LineRefusal {
            line: self.number,
            refusal,
        }
    }
}

// The signature lines from a place on, where a line with this number starts.
#[derive(Drop)]
pub(crate) struct Lines<'a> {
    file: &'a [u8],
    at: usize,
    number: usize,
    ghost within: { at ≤ length file.now + 1 },
    ghost counted: { number ≤ at + 1 },
}

impl<'a> Lines<'a> {
    ghost use Rattle.std.specs.Prelude.{◌≡◌};
    ghost use Rattle.list_compiler.specs.FileLines.{file_lines, lines_left};

    #[tactic(auto, using(crate::proofs::Walk::left_start), unfolding(crate::specs::FileLines::lines_left))]
    pub(crate) fn of(file: &'a [u8]) -> Self
        ensures { lines_left result ≡ file_lines file.now }
    {
        Lines {
            file,
            at: 0,
            number: 1,
        }
    }
}

impl<'a> Iterator for Lines<'a> {
    ghost use Rattle.std.specs.Iterator.{YieldsFirst, item_count};
    ghost use Rattle.list_compiler.specs.FileLines.{lines_left};

    type Item = Line;

    ghost next_gives = { YieldsFirst lines_left };

    ghost remaining = { item_count lines_left };

    // The step is the line's own length, so that no `for` counts it; passed-over lines have a number too.
    fn next(&mut self) -> Option<Line> {
        while self.at < self.file.len() {
            let line = kept_at(self.file, self.at);
            let number = self.number;
            self.at = line.next;
            self.number += 1;
            if let Some(read) = line.read {
                return Some(Line { number, read });
            }
        }
        None
    }
}
