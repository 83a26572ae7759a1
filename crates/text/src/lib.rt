// Text, put into a buffer that the caller lends, from a place on. Each function hands back the place behind what it put; what finds no
// room is not written, and every other byte stays as it was. Buffer and place stay two parameters: a struct of both was tried,
// and gives every contract a clause more, `self.new.buffer.ghost_name ≡ self.old.buffer.ghost_name`, where each has one equation now.
#![tactic(auto)]

ghost use Rattle.std.specs.Prelude.{◌≡◌, [], ◌∷◌, ◌+◌, ◌-◌, ◌%◌, ◌≤◌, length};
ghost use Rattle.text.specs.Decimal.{decimal};
ghost use Rattle.text.specs.Written.{PutAll, Put};

pub fn put_byte(buffer: &mut [u8], at: usize, byte: u8) -> usize
    ensures { Put buffer.old at (byte ∷ []) result buffer.new }
{
    if buffer.len() <= at {
        return at;
    }
    buffer[at] = byte;
    at + 1
}

// A word that finds room.
fn copy(buffer: &mut [u8], at: usize, word: &[u8]) -> usize
    requires { length word.now ≤ length buffer.old - at }
    ensures { PutAll buffer.old at word.now result buffer.new }
{
    for i in 0..word.len() {
        buffer[at + i] = word[i];
    }
    at + word.len()
}

// As much of a word as finds room. A word that finds it goes a way of its own, on which its length is what the caller gave: one that is
// known there is put by a store or two, where `copy_from_slice` of the lesser length is a call of memmove (docs/DESIGN-PASS.md, "Speed").
pub fn put_word(buffer: &mut [u8], at: usize, word: &[u8]) -> usize
    ensures { Put buffer.old at word.now result buffer.new }
{
    let left = buffer.len().saturating_sub(at);
    if left < word.len() {
        return copy(buffer, at, &word[0..left]);
    }
    copy(buffer, at, word)
}

fn digit(n: u16) -> u8
    ensures { result ≡ 48 + n % 10 }
{
    (48 + n % 10) as u8
}

// A number in decimal, without leading zeros: a digit for each unit that the number reaches, and the last.
pub fn put_decimal(buffer: &mut [u8], at: usize, n: u16) -> usize
    ensures { Put buffer.old at (decimal n) result buffer.new }
{
    let mut next = at;
    for unit in [10000, 1000, 100, 10] {
        if unit <= n {
            next = put_byte(buffer, next, digit(n / unit));
        }
    }
    put_byte(buffer, next, digit(n))
}

// How many digits a number has in decimal.
#[tactic(auto, unfolding(crate::specs::Decimal::decimal, crate::specs::Decimal::width))]
pub fn decimal_length(n: u16) -> usize
    ensures { result ≡ length (decimal n) }
{
    match n {
        0..=9 => 1,
        10..=99 => 2,
        100..=999 => 3,
        1000..=9999 => 4,
        _ => 5,
    }
}
