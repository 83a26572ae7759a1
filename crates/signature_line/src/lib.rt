// The line in which p0f writes a signature: its grammar, what a line means as a record with its layout, and that the reader accepts
// exactly the grammar (document 02, Wish 1). The types are what reading a line gives.
#![tactic(auto)]

ghost use Rattle.refusals.specs.declared.Refusal.TheVariants as refusal;
ghost use Rattle.std.specs.Prelude.{◌≡◌};

use refusals::Refusal;
use tcp::Layout;

// Refusal 13: the offset of the first byte at which no line goes on.
#[derive(Clone, Copy, Debug, PartialEq, Eq)]
pub struct BadLine {
    pub offset: usize,
}

impl From<BadLine> for Refusal {
    ghost from_gives = { λ bad r. r ≡ refusal.BadLine bad.offset };

    fn from(bad: BadLine) -> Refusal {
        Refusal::BadLine(bad.offset)
    }
}

// A line that was read: its record, as the 24 bytes of a signature list's record, and its layout.
#[derive(Clone, Copy)]
pub struct SignatureRead {
    pub raw: [u8; 24],
    pub layout: Layout,
}
