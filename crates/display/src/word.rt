// A word of a line: letters, and behind them a number or nothing.
ghost use Rattle.std.specs.Prelude.{◌≤◌, length};

use text::{decimal_length, put_byte, put_decimal};

#[derive(Clone, Copy)]
pub(crate) struct Word {
    letters: &'static [u8],
    number: Option<u16>,
    ghost few: { length letters.now ≤ 6 },
}

impl Word {
    ghost use Rattle.std.specs.Prelude.{◌≡◌, ◌++◌};
    ghost use Rattle.display.specs.Words.{word_text};
    ghost use Rattle.text.specs.Decimal.{decimal};
    ghost use Rattle.text.specs.Written.{Put};

    pub(crate) fn bare(letters: &'static [u8]) -> Self
        requires { length letters.now ≤ 6 }
        ensures { word_text result ≡ letters.now }
    {
        Self {
            letters,
            number: None,
        }
    }

    pub(crate) fn numbered(letters: &'static [u8], number: u16) -> Self
        requires { length letters.now ≤ 6 }
        ensures { word_text result ≡ letters.now ++ decimal number }
    {
        Self {
            letters,
            number: Some(number),
        }
    }

    // Letter by letter: by `put_word`, tried, each word is a call of memcpy (docs/DESIGN-PASS.md, "Speed").
    pub(crate) fn put(self, buffer: &mut [u8], at: usize) -> usize
        ensures { Put buffer.old at (word_text self) result buffer.new }
    {
        let mut behind = at;
        for &letter in self.letters {
            behind = put_byte(buffer, behind, letter);
        }
        match self.number {
            None => behind,
            Some(n) => put_decimal(buffer, behind, n),
        }
    }

    pub(crate) fn length(self) -> usize
        ensures { result ≡ length (word_text self) }
    {
        match self.number {
            None => self.letters.len(),
            Some(n) => self.letters.len() + decimal_length(n),
        }
    }
}
