// No code: the keeper's file, a signature a line, and the signature list that it says; the way back from a list to such a file. The types
// are what compiling a file answers.
#![tactic(auto)]

use refusals::Refusal;

// Why a file is refused, with the number of the line that is, from 1; 0 if no line is at fault, but the buffer.
#[derive(Clone, Copy)]
pub struct LineRefusal {
    pub line: usize,
    pub refusal: Refusal,
}

// How many signatures and layout entries a file has.
#[derive(Clone, Copy)]
pub struct Counts {
    pub signatures: usize,
    pub entries: usize,
}
