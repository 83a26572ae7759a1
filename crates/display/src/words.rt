// The words of each field of a line. They stand here once: putting a word and counting its bytes read the same list.
ghost use Rattle.std.specs.Prelude.{◌≡◌};
ghost use Rattle.display.specs.Words.{word_text};
ghost use Rattle.grammar.specs.Spelling.{spelt};
ghost use Rattle.grammar.specs.Table.{said};
ghost use Rattle.quirks.specs.Quirks.{bit_of};
ghost use Rattle.signature_line.specs.Words as words;
ghost use Rattle.written_line.specs.Signature.{version_said, form_said, mss_said, scale_said, window_said, payload_said, entry_said};

use crate::word::Word;
use quirks::Quirk;
use sigrecord::{SigPayload, SigVersion, WindowSize};
use ttl::Ttl;

#[tactic(auto, unfolding(grammar::specs::Spelling::spelt, signature_line::specs::Words::version))]
pub(crate) fn version_word(version: SigVersion) -> Word
    ensures { word_text result ≡ spelt words.version (version_said version) }
{
    match version {
        SigVersion::Any => Word::bare(b"*"),
        SigVersion::V4 => Word::bare(b"4"),
        SigVersion::V6 => Word::bare(b"6"),
    }
}

// What stands behind the number of a TTL.
#[tactic(auto, unfolding(grammar::specs::Spelling::spelt, signature_line::specs::Words::ttl_form))]
pub(crate) fn ttl_form(ttl: Ttl) -> Word
    ensures { word_text result ≡ spelt words.ttl_form (form_said ttl) }
{
    match ttl {
        Ttl::Value(_) => Word::bare(b""),
        Ttl::Distance(_, hops) => Word::numbered(b"+", u16::from(hops)),
        Ttl::Guess(_) => Word::bare(b"+?"),
        Ttl::Bad(_) => Word::bare(b"-"),
    }
}

// A number, or `*` where none is declared.
#[tactic(auto, unfolding(grammar::specs::Spelling::spelt, signature_line::specs::Words::mss))]
pub(crate) fn mss_word(mss: Option<u16>) -> Word
    ensures { word_text result ≡ spelt words.mss (mss_said mss) }
{
    match mss {
        None => Word::bare(b"*"),
        Some(n) => Word::numbered(b"", n),
    }
}

#[tactic(auto, using(crate::proofs::Laws::as_mss))]
pub(crate) fn scale_word(wscale: Option<u8>) -> Word
    ensures { word_text result ≡ spelt words.scale (scale_said wscale) }
{
    mss_word(wscale.map(u16::from))
}

#[tactic(auto, unfolding(grammar::specs::Spelling::spelt, signature_line::specs::Words::window))]
pub(crate) fn window_word(wsize: WindowSize) -> Word
    ensures { word_text result ≡ spelt words.window (window_said wsize) }
{
    match wsize {
        WindowSize::Any => Word::bare(b"*"),
        WindowSize::Value(n) => Word::numbered(b"", n),
        WindowSize::Mod(n) => Word::numbered(b"%", n),
        WindowSize::Mss(n) => Word::numbered(b"mss*", u16::from(n)),
        WindowSize::Mtu(n) => Word::numbered(b"mtu*", u16::from(n)),
    }
}

// An entry of a layout: a kind with a name by that name, the bytes left behind the end of options; any other kind by its number.
#[tactic(auto, using(crate::proofs::Laws::not_named),
// what is said of it
unfolding(written_line::specs::Signature::entry_said, signature_line::specs::Words::unnamed,
// its word
signature_line::specs::Words::entry, grammar::specs::Spelling::spelt))]
pub(crate) fn option_word(kind: u8, byte: u8) -> Word
    ensures { word_text result ≡ spelt words.entry (entry_said kind byte) }
{
    match kind {
        0 => Word::numbered(b"eol+", u16::from(byte)),
        1 => Word::bare(b"nop"),
        2 => Word::bare(b"mss"),
        3 => Word::bare(b"ws"),
        4 => Word::bare(b"sok"),
        5 => Word::bare(b"sack"),
        8 => Word::bare(b"ts"),
        _ => Word::numbered(b"?", u16::from(kind)),
    }
}

#[tactic(auto, unfolding(quirks::specs::Quirks::bit_of, quirks::specs::Quirks::place_of,
// its word
signature_line::specs::Words::quirk_word, grammar::specs::Spelling::spelt))]
pub(crate) fn quirk_word(quirk: Quirk) -> Word
    ensures { word_text result ≡ spelt words.quirk_word (said (bit_of quirk) 0) }
{
    Word::bare(match quirk {
        Quirk::Df => b"df",
        Quirk::NonZeroID => b"id+",
        Quirk::ZeroID => b"id-",
        Quirk::Ecn => b"ecn",
        Quirk::MustBeZero => b"0+",
        Quirk::FlowID => b"flow",
        Quirk::SeqNumZero => b"seq-",
        Quirk::AckNumNonZero => b"ack+",
        Quirk::AckNumZero => b"ack-",
        Quirk::NonZeroURG => b"uptr+",
        Quirk::Urg => b"urgf+",
        Quirk::Push => b"pushf+",
        Quirk::OwnTimestampZero => b"ts1-",
        Quirk::PeerTimestampNonZero => b"ts2+",
        Quirk::TrailinigNonZero => b"opt+",
        Quirk::ExcessiveWindowScaling => b"exws",
        Quirk::OptBad => b"bad",
    })
}

#[tactic(auto, unfolding(grammar::specs::Spelling::spelt, signature_line::specs::Words::payload))]
pub(crate) fn payload_word(payload: SigPayload) -> Word
    ensures { word_text result ≡ spelt words.payload (payload_said payload) }
{
    match payload {
        SigPayload::Zero => Word::bare(b"0"),
        SigPayload::NonZero => Word::bare(b"+"),
        SigPayload::Any => Word::bare(b"*"),
    }
}
