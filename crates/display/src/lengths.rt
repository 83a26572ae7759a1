// How long the text of each field is.
ghost use Rattle.std.specs.Prelude.{◌≡◌, length};
ghost use Rattle.grammar.specs.Spelling.{spelt};
ghost use Rattle.grammar.specs.Table.{said};
ghost use Rattle.quirks.specs.Quirks.{bit_of};
ghost use Rattle.signature_line.specs.Words as words;
ghost use Rattle.ttl.specs.Ttl.{byte_of};
ghost use Rattle.written_line.specs.LineText.{ttl_text};
ghost use Rattle.written_line.specs.Signature.{form_said, mss_said, scale_said, window_said, entry_said};

use crate::words;
use quirks::Quirk;
use sigrecord::WindowSize;
use text::decimal_length;
use ttl::{Ttl, observed_ttl};

pub fn ttl_length(ttl: Ttl) -> usize
    ensures { result ≡ length (ttl_text (said 0 (byte_of ttl)) (form_said ttl)) }
{
    decimal_length(u16::from(observed_ttl(ttl))) + words::ttl_form(ttl).length()
}

pub fn mss_length(mss: Option<u16>) -> usize
    ensures { result ≡ length (spelt words.mss (mss_said mss)) }
{
    words::mss_word(mss).length()
}

pub fn wscale_length(wscale: Option<u8>) -> usize
    ensures { result ≡ length (spelt words.scale (scale_said wscale)) }
{
    words::scale_word(wscale).length()
}

pub fn window_length(wsize: WindowSize) -> usize
    ensures { result ≡ length (spelt words.window (window_said wsize)) }
{
    words::window_word(wsize).length()
}

pub fn option_length(kind: u8, byte: u8) -> usize
    ensures { result ≡ length (spelt words.entry (entry_said kind byte)) }
{
    words::option_word(kind, byte).length()
}

pub fn quirk_length(quirk: Quirk) -> usize
    ensures { result ≡ length (spelt words.quirk_word (said (bit_of quirk) 0)) }
{
    words::quirk_word(quirk).length()
}
