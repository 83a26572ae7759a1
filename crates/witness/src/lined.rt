// What is read of a signature line, as a struct of numbers.
ghost use Rattle.std.specs.Prelude.{◌≡◌};
ghost use Rattle.witness.specs.Lined.{plain_line};

use crate::PlainLine;
use refusals::refusal_number;
use signature_line::{BadLine, SignatureRead};

#[tactic(auto, unfolding(crate::specs::Lined::plain_line))]
pub(crate) fn plain_line(read: Result<SignatureRead, BadLine>) -> PlainLine
    ensures { result ≡ plain_line read }
{
    match read {
        Ok(read) => {
            // Arrays go into a literal without calls through variables (a rule of Rattle).
            let raw = read.raw;
            let kinds = read.layout.kinds;
            let bytes = read.layout.bytes;
            PlainLine {
                count: read.layout.count,
                offset: 0,
                refusal: 0,
                raw,
                kinds,
                bytes,
            }
        }
        Err(bad) => PlainLine {
            count: 0,
            offset: bad.offset,
            refusal: refusal_number(bad.into()),
            raw: [0; 24],
            kinds: [0; 40],
            bytes: [0; 40],
        },
    }
}
