// What compiling a keeper's file answers for C: sixteen bytes, returned in two registers (specs/Compiled.antt; include/termread.h has the
// same struct).
ghost use Rattle.std.specs.Prelude.{◌≡◌};
ghost use Rattle.gateway.specs.Compiled.{compiled_parts};

use crate::TermreadCompiled;
use keeper_file::LineRefusal;
use refusals::{refusal_number, refusal_value};

// A list's length is told whole; a line's number and an offset modulo this.
const WORD: usize = 4294967296;

#[tactic(auto, unfolding(crate::specs::Compiled::compiled_parts))]
pub(crate) fn compiled_parts(compiled: Result<usize, LineRefusal>) -> TermreadCompiled
    ensures { result ≡ compiled_parts compiled }
{
    match compiled {
        Ok(size) => TermreadCompiled {
            length: (size % WORD) as u32,
            line: 0,
            offset: 0,
            refusal: 0,
        },
        Err(LineRefusal { line, refusal }) => TermreadCompiled {
            length: 0,
            line: (line % WORD) as u32,
            offset: (refusal_value(refusal) % WORD) as u32,
            refusal: refusal_number(refusal) as u32,
        },
    }
}
