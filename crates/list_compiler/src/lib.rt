// A keeper's file compiled into a signature list, in a buffer that is lent: its lines are checked, then counted, and only then is anything
// written, so that a file that is refused leaves the buffer as it was.
#![tactic(auto)]

ghost use Rattle.std.specs.Prelude.{◌≡◌, Ok};
ghost use Rattle.text.specs.Written.{Writes};
ghost use Rattle.keeper_file.specs.Compiling.{compile_file};
ghost use Rattle.list_compiler.specs.FileParts.{file_check, file_tally, file_into};

use keeper_file::{Counts, LineRefusal};
use lines::Lines;
use pieces::{put_all_entries, put_header, put_records};
use refusals::Refusal;

mod lines;
mod pieces;

// The header counts records in two bytes.
const MOST_SIGNATURES: usize = 65535;

// The records lie behind the entries, at an offset of two bytes: 8 and 2 for each entry.
const MOST_ENTRIES: usize = 32763;

// The first signature line of a file that is refused, by its number among all lines, from 1.
fn first_bad(file: &[u8]) -> Result<(), LineRefusal>
    ensures { result ≡ file_check file.now }
{
    for line in Lines::of(file) {
        if let Err(bad) = line.read {
            return Err(line.refused(Refusal::from(bad)));
        }
    }
    Ok(())
}

// The signatures and the layout entries of a file, or the line with which they are more than a header can count.
fn tally(file: &[u8]) -> Result<Counts, LineRefusal>
    ensures { result ≡ file_tally file.now }
{
    let mut signatures = 0;
    let mut entries = 0;
    for line in Lines::of(file) {
        signatures += 1;
        entries += line.entries();
        if MOST_SIGNATURES < signatures {
            return Err(line.refused(Refusal::TooManySignatures));
        }
        if MOST_ENTRIES < entries {
            return Err(line.refused(Refusal::TooManyEntries));
        }
    }
    Ok(Counts {
        signatures,
        entries,
    })
}

// The list of a file that was checked and counted, or refusal 15.
#[tactic(auto, using(crate::proofs::Compiled::few_signatures, crate::proofs::Compiled::few_entries))]
fn write_list(buffer: &mut [u8], file: &[u8], counts: Counts) -> Result<usize, LineRefusal>
    requires good { file_check file.now ≡ Ok tt }
    requires counted { file_tally file.now ≡ Ok counts }
    ensures { Writes buffer.old (file_into file.now) result buffer.new }
{
    let size = 8 + 2 * counts.entries + 24 * counts.signatures;
    if buffer.len() < size {
        return Err(LineRefusal {
            line: 0,
            refusal: Refusal::BufferTooShort,
        });
    }
    let at_entries = put_header(buffer, counts);
    let at_records = put_all_entries(buffer, at_entries, file);
    put_records(buffer, at_records, file);
    Ok(size)
}

// A file compiled into a list; or its first bad line, the line with which it has too much for one list, or a buffer that is too short.
pub fn compile_list(buffer: &mut [u8], file: &[u8]) -> Result<usize, LineRefusal>
    ensures { Writes buffer.old (compile_file file.now) result buffer.new }
{
    first_bad(file)?;
    let counts = tally(file)?;
    write_list(buffer, file, counts)
}
