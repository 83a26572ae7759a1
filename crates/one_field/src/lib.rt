// The fields of a signature line, one by one (parse/tcp.rs): each read from a place on, in one pass and with no way back. `nom` becomes an
// index walk; a number is held against its field digit by digit, and refuses where it stands.
#![tactic(auto)]

ghost use Rattle.std.specs.Prelude.{◌≡◌};
ghost use Rattle.signature_line.specs.Words.{version, bare_byte, mss, window, scale, entry, quirk_word, payload};
ghost use Rattle.one_field.specs.Places.{whole_piece, starred, behind_at, next_at, piece_at, field_at, ttl_at, ttl_field_at};

use letters::{read_word, stands};
use numerals::{Piece, no_piece, read_numeral, read_unnamed};
use quirk_names::{read_behind_e, read_behind_u, read_stamp, sign_behind};
use quirks::bits;
use signature_line::BadLine;
use words::{number_behind, read_behind_s, read_multiple, read_ttl_form};

mod letters;
mod quirk_names;
mod words;

// A TTL: where it ends, its number, and its form with the distance.
#[derive(Clone, Copy)]
pub struct TtlPiece {
    pub at: usize,
    pub ttl: u32,
    pub form: u32,
    pub distance: u32,
}

// A word that ends at this place.
pub(crate) fn whole(at: usize, form: u32) -> Piece
    ensures { result ≡ whole_piece at form }
{
    Piece {
        at,
        form,
        number: 0,
    }
}

// The place behind a byte that must stand at a place.
#[tactic(auto, unfolding(crate::specs::Places::behind_at))]
pub(crate) fn byte_behind(s: &[u8], at: usize, byte: u8) -> Result<usize, BadLine>
    ensures { result ≡ behind_at byte s.now at }
{
    if !stands(s, at, byte) {
        return Err(BadLine { offset: at });
    }
    Ok(at + 1)
}

// The same from a place that is given; where none is, no line went on before. So it is of each field.
pub fn behind(s: &[u8], from: Result<usize, BadLine>, byte: u8) -> Result<usize, BadLine>
    ensures { result ≡ next_at byte s.now from }
{
    byte_behind(s, from?, byte)
}

// `4`, `6` or `*`.
pub fn parse_ip_version(s: &[u8], from: Result<usize, BadLine>) -> Result<Piece, BadLine>
    ensures { result ≡ field_at version s.now from }
{
    read_ip_version(s, from?)
}

fn read_ip_version(s: &[u8], from: usize) -> Result<Piece, BadLine>
    ensures { result ≡ piece_at version s.now from }
{
    if stands(s, from, b'4') {
        return Ok(whole(from + 1, 4));
    }
    if stands(s, from, b'6') {
        return Ok(whole(from + 1, 6));
    }
    read_word(s, from, b"*", 0)
}

// A number up to 255.
#[tactic(auto, unfolding(signature_line::specs::Words::bare_byte))]
pub fn parse_olen(s: &[u8], from: Result<usize, BadLine>) -> Result<Piece, BadLine>
    ensures { result ≡ field_at bare_byte s.now from }
{
    read_numeral(s, from?, 255, 0)
}

// A number up to 255, then nothing, `+` and a distance, `+?` or `-`.
pub fn parse_ttl(s: &[u8], from: Result<usize, BadLine>) -> Result<TtlPiece, BadLine>
    ensures { result ≡ ttl_field_at s.now from }
{
    read_ttl(s, from?)
}

#[tactic(auto, unfolding(crate::specs::Places::ttl_at, numerals::specs::Pieces::and_then))]
fn read_ttl(s: &[u8], from: usize) -> Result<TtlPiece, BadLine>
    ensures { result ≡ ttl_at s.now from }
{
    let ttl = parse_olen(s, Ok(from))?;
    let form = read_ttl_form(s, ttl.at)?;
    Ok(TtlPiece {
        at: form.at,
        ttl: ttl.number,
        form: form.form,
        distance: form.number,
    })
}

// `*`, or a number up to a bound.
#[inline(always)]
fn read_starred(s: &[u8], from: usize, max: u16) -> Result<Piece, BadLine>
    ensures { result ≡ piece_at (starred max) s.now from }
{
    if stands(s, from, b'*') {
        return Ok(whole(from + 1, 0));
    }
    read_numeral(s, from, max, 1)
}

// `*`, or a number up to 65535.
#[tactic(auto, unfolding(signature_line::specs::Words::mss))]
pub fn parse_mss(s: &[u8], from: Result<usize, BadLine>) -> Result<Piece, BadLine>
    ensures { result ≡ field_at mss s.now from }
{
    read_starred(s, from?, 65535)
}

// `*`, or a number up to 255.
#[tactic(auto, unfolding(signature_line::specs::Words::scale))]
pub fn parse_wscale(s: &[u8], from: Result<usize, BadLine>) -> Result<Piece, BadLine>
    ensures { result ≡ field_at scale s.now from }
{
    read_starred(s, from?, 255)
}

// `*`, a number up to 65535, `%` and one, `mss*` or `mtu*` and a number up to 255.
pub fn parse_window_size(s: &[u8], from: Result<usize, BadLine>) -> Result<Piece, BadLine>
    ensures { result ≡ field_at window s.now from }
{
    read_window_size(s, from?)
}

fn read_window_size(s: &[u8], from: usize) -> Result<Piece, BadLine>
    ensures { result ≡ piece_at window s.now from }
{
    if stands(s, from, b'*') {
        return Ok(whole(from + 1, 0));
    }
    if stands(s, from, b'%') {
        return read_numeral(s, from + 1, 65535, 2);
    }
    if stands(s, from, b'm') {
        return read_multiple(s, from + 1);
    }
    read_numeral(s, from, 65535, 1)
}

// `eol+` and a number, `nop`, `mss`, `ws`, `sok`, `sack`, `ts`, or `?` and a kind without a name.
pub fn parse_tcp_option(s: &[u8], from: usize) -> Result<Piece, BadLine>
    ensures { result ≡ piece_at entry s.now from }
{
    if s.len() <= from {
        return no_piece(from);
    }
    let next = from + 1;
    match s[from] {
        b'n' => read_word(s, next, b"op", 1),
        b'm' => read_word(s, next, b"ss", 2),
        b'w' => read_word(s, next, b"s", 3),
        b's' => read_behind_s(s, next),
        b't' => read_word(s, next, b"s", 8),
        b'e' => number_behind(s, next, b"ol+", 0),
        b'?' => read_unnamed(s, next),
        _ => no_piece(from),
    }
}

// One of the seventeen names; its form is the quirk's bit.
pub fn parse_quirk(s: &[u8], from: usize) -> Result<Piece, BadLine>
    ensures { result ≡ piece_at quirk_word s.now from }
{
    if s.len() <= from {
        return no_piece(from);
    }
    let next = from + 1;
    match s[from] {
        b'd' => read_word(s, next, b"f", bits::DF),
        b'i' => sign_behind(s, next, b"d", bits::NON_ZERO_ID, bits::ZERO_ID),
        b'e' => read_behind_e(s, next),
        b'0' => read_word(s, next, b"+", bits::MUST_BE_ZERO),
        b'f' => read_word(s, next, b"low", bits::FLOW_ID),
        b's' => read_word(s, next, b"eq-", bits::SEQ_NUM_ZERO),
        b'a' => sign_behind(s, next, b"ck", bits::ACK_NUM_NON_ZERO, bits::ACK_NUM_ZERO),
        b'u' => read_behind_u(s, next),
        b'p' => read_word(s, next, b"ushf+", bits::PUSH),
        b't' => read_stamp(s, next),
        b'o' => read_word(s, next, b"pt+", bits::TRAILINIG_NON_ZERO),
        b'b' => read_word(s, next, b"ad", bits::OPT_BAD),
        _ => no_piece(from),
    }
}

// `0`, `+` or `*`.
pub fn parse_payload_size(s: &[u8], from: Result<usize, BadLine>) -> Result<Piece, BadLine>
    ensures { result ≡ field_at payload s.now from }
{
    read_payload_size(s, from?)
}

fn read_payload_size(s: &[u8], from: usize) -> Result<Piece, BadLine>
    ensures { result ≡ piece_at payload s.now from }
{
    if stands(s, from, b'0') {
        return Ok(whole(from + 1, 0));
    }
    if stands(s, from, b'+') {
        return Ok(whole(from + 1, 1));
    }
    read_word(s, from, b"*", 2)
}
