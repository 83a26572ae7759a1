// Numbers of the standard library that the original uses: a byte as a wider number, from_be_bytes, min, saturating_sub and
// saturating_add; and bytes of a string by their place. Each stays a function beside the library's method: its promise is the equation in
// plain arithmetic that the callers' proofs cite, and that its must-fail edits break.
#![tactic(auto)]

ghost use Rattle.std.specs.Prelude.{◌≡◌, ◌+◌, ◌*◌, ◌-◌, min};
ghost use Rattle.basis.specs.Bytes as bytes;

// A byte as a two-byte number.
pub fn wide(x: u8) -> u16
    ensures { result ≡ x }
{
    u16::from(x)
}

// A two-byte number, its high byte first.
pub fn be16(high: u8, low: u8) -> u16
    ensures { result ≡ high * 256 + low }
{
    u16::from_be_bytes([high, low])
}

// A four-byte number from its two halves, the high one first.
pub fn be32(high: u16, low: u16) -> u32
    ensures { result ≡ high * 65536 + low }
{
    u32::from(high) * 65536 + u32::from(low)
}

// The byte at a place, and 0 past the end.
pub fn byte_at(s: &[u8], i: usize) -> u8
    ensures { result ≡ bytes.byte_at s.now i }
{
    s.get(i).copied().unwrap_or(0)
}

// The two-byte number at a place, its high byte first; past the end its bytes are 0.
#[tactic(auto, unfolding(basis::specs::Bytes::be16))]
pub fn be16_at(s: &[u8], i: usize) -> u16
    ensures { result ≡ bytes.be16 s.now i }
{
    if s.len() <= i {
        return 0;
    }
    be16(byte_at(s, i), byte_at(s, i + 1))
}

pub fn least(a: usize, b: usize) -> usize
    ensures { result ≡ min a b }
{
    a.min(b)
}

pub fn saturating_sub(a: u16, b: u16) -> u16
    ensures { result ≡ a - b }
{
    a.saturating_sub(b)
}

pub fn saturating_add(a: u16, b: u16) -> u16
    ensures { result ≡ min (a + b) 65535 }
{
    a.saturating_add(b)
}
