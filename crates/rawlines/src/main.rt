// rawlines: what the terminals showed. A bundle on standard input (document 01, "The bundle program"); on standard output what `termread`
// prints, and behind each packet's answer its raw line, or `-` where nothing was seen (document 02, Wish 7), and nothing below it.
#![tactic(auto)]

use bundle_lines::{Answered, Below, CheckedList, Read, answer_bundle};
use streams::Cut;

struct Nothing;

impl Below for Nothing {
    fn write(&self, _list: CheckedList, _answer: Answered, _reading: Read) -> Result<(), Cut> {
        Ok(())
    }
}

fn main(rt: HostRuntime) {
    answer_bundle(rt.stdin(), rt.stdout(), rt.stderr(), b"rawlines", &Nothing);
}
