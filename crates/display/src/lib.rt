// The Display implementations of tcp/mod.rs: the text of each field of a line, put into a lent buffer from a place on. Each function hands
// back the place behind what it put. The length of each text, before it is put: `lengths`. An `impl Display` would write through a
// `Formatter`: it could not promise `Put`, as much as finds room in the buffer that the C interface lends.
#![tactic(auto)]

ghost use Rattle.grammar.specs.Spelling.{spelt};
ghost use Rattle.grammar.specs.Table.{said};
ghost use Rattle.quirks.specs.Quirks.{bit_of};
ghost use Rattle.signature_line.specs.Words as words;
ghost use Rattle.text.specs.Written.{Put};
ghost use Rattle.ttl.specs.Ttl.{byte_of};
ghost use Rattle.written_line.specs.LineText.{ttl_text};
ghost use Rattle.written_line.specs.Signature.{version_said, form_said, mss_said, scale_said, window_said, payload_said, entry_said};

use quirks::Quirk;
use sigrecord::{SigPayload, SigVersion, WindowSize};
use text::put_decimal;
use ttl::{Ttl, observed_ttl};

pub mod lengths;
mod word;
mod words;

pub fn put_version(buffer: &mut [u8], at: usize, version: SigVersion) -> usize
    ensures { Put buffer.old at (spelt words.version (version_said version)) result buffer.new }
{
    words::version_word(version).put(buffer, at)
}

pub fn put_ttl(buffer: &mut [u8], at: usize, ttl: Ttl) -> usize
    ensures { Put buffer.old at (ttl_text (said 0 (byte_of ttl)) (form_said ttl)) result buffer.new }
{
    let form = put_decimal(buffer, at, u16::from(observed_ttl(ttl)));
    words::ttl_form(ttl).put(buffer, form)
}

// A number, or `*` where none is declared.
pub fn put_mss(buffer: &mut [u8], at: usize, mss: Option<u16>) -> usize
    ensures { Put buffer.old at (spelt words.mss (mss_said mss)) result buffer.new }
{
    words::mss_word(mss).put(buffer, at)
}

pub fn put_wscale(buffer: &mut [u8], at: usize, wscale: Option<u8>) -> usize
    ensures { Put buffer.old at (spelt words.scale (scale_said wscale)) result buffer.new }
{
    words::scale_word(wscale).put(buffer, at)
}

pub fn put_window(buffer: &mut [u8], at: usize, wsize: WindowSize) -> usize
    ensures { Put buffer.old at (spelt words.window (window_said wsize)) result buffer.new }
{
    words::window_word(wsize).put(buffer, at)
}

// An entry of a layout: a kind with a name by that name, the bytes left behind the end of options; any other kind by its number.
pub fn put_option(buffer: &mut [u8], at: usize, kind: u8, byte: u8) -> usize
    ensures { Put buffer.old at (spelt words.entry (entry_said kind byte)) result buffer.new }
{
    words::option_word(kind, byte).put(buffer, at)
}

pub fn put_quirk(buffer: &mut [u8], at: usize, quirk: Quirk) -> usize
    ensures { Put buffer.old at (spelt words.quirk_word (said (bit_of quirk) 0)) result buffer.new }
{
    words::quirk_word(quirk).put(buffer, at)
}

pub fn put_payload(buffer: &mut [u8], at: usize, payload: SigPayload) -> usize
    ensures { Put buffer.old at (spelt words.payload (payload_said payload)) result buffer.new }
{
    words::payload_word(payload).put(buffer, at)
}
