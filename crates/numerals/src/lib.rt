// The numbers of a signature line (parse/tcp.rs), in decimal, held against their bound digit by digit.
#![tactic(auto)]

ghost use Rattle.std.specs.Prelude.{◌≡◌, ◌≤◌};
ghost use Rattle.grammar.specs.States.{fits};
ghost use Rattle.signature_line.specs.Words.{unnamed};
ghost use Rattle.numerals.specs.Pieces.{no_piece, number_from, numeral_at};
ghost use Rattle.grammar.specs.Numeral.{any};

use signature_line::BadLine;

// What a field of a line, or a part of one, says: where it ends, its code, and the number that stands with it. The code is a number: it
// is the byte of a record that document 01 lists for it.
#[derive(Clone, Copy)]
pub struct Piece {
    pub at: usize,
    pub form: u32,
    pub number: u32,
}

// Nothing is meant up to this place: what a part that is refused gives.
pub fn no_piece(at: usize) -> Result<Piece, BadLine>
    ensures { result ≡ no_piece at }
{
    Err(BadLine { offset: at })
}

// Where a number stopped, and the number.
#[derive(Clone, Copy)]
pub struct Taken {
    pub at: usize,
    pub value: u32,
}

// A byte goes on with a number that is `n` so far.
#[tactic(auto, unfolding(grammar::specs::States::fits))]
fn digit_fits(max: u32, n: u32, byte: u8) -> bool
    requires { n ≤ 65535 }
    ensures { result ≡ fits max n byte }
{
    byte.is_ascii_digit() && n * 10 + u32::from(byte - b'0') <= max
}

// The digits from a place on, up to the byte that does not go on with the number.
fn read_number(s: &[u8], from: usize, max: u32) -> Taken
    requires { max ≤ 65535 }
    ensures { result ≡ number_from max 0 s.now from }
{
    let mut value = 0;
    for at in from..s.len() {
        let byte = s[at];
        if !digit_fits(max, value, byte) {
            return Taken { at, value };
        }
        value = value * 10 + u32::from(byte - b'0');
    }
    Taken {
        at: from.max(s.len()),
        value,
    }
}

// A number up to a bound, at least one digit of it.
pub fn read_numeral(s: &[u8], from: usize, max: u16, form: u32) -> Result<Piece, BadLine>
    ensures { result ≡ numeral_at max any form s.now from }
{
    let number = read_number(s, from, u32::from(max));
    if number.at == from {
        return no_piece(from);
    }
    Ok(Piece {
        at: number.at,
        form,
        number: number.value,
    })
}

// 6, 7 and 9 to 255 have no name.
#[tactic(auto, unfolding(signature_line::specs::Words::unnamed))]
fn is_unnamed(kind: u32) -> bool
    ensures { result ≡ unnamed kind }
{
    !matches!(kind, 0..=5 | 8)
}

// A kind without a name. A named one is refused behind its digits: `?2` goes on to `?20`.
pub fn read_unnamed(s: &[u8], from: usize) -> Result<Piece, BadLine>
    ensures { result ≡ numeral_at 255 unnamed 6 s.now from }
{
    let number = read_number(s, from, 255);
    if number.at == from {
        return no_piece(from);
    }
    if !is_unnamed(number.value) {
        return no_piece(number.at);
    }
    Ok(Piece {
        at: number.at,
        form: 6,
        number: number.value,
    })
}
