ghost use Rattle.std.specs.Prelude.{◌≡◌, drop, Some};
ghost use Rattle.std.specs.Option.{option_map};
ghost use Rattle.std.specs.Result.{result_ok};
ghost use Rattle.console.specs.Numbers.{unsigned_of, signed_of};
ghost use Rattle.console.specs.Words.{first, words_of};
ghost use Rattle.commands.specs.Commands.{word, base_of, hex_in, ended};

use crate::fault::Fault;
use console::{Words, is_hex, signed, unsigned};
use std::marker::Model;

// The words of a line that are left, taken one by one for what they have to be.
#[derive(Drop)]
pub(crate) struct Arguments<'a> {
    words: Words<'a>,
}

impl<'a> Model for Arguments<'a> {
    ghost use Rattle.std.specs.Prelude.{ℕ, List};
    ghost use Rattle.console.specs.Words.{words_left};

    ghost Value = { List (List ℕ) };

    ghost view = { λ a. words_left a.words };
}

impl<'a> Arguments<'a> {
    pub(crate) fn new(line: &'a [u8]) -> Arguments<'a>
        ensures { result ≡ words_of line.now }
    {
        Arguments {
            words: Words::new(line),
        }
    }

    // The next word, empty where there is none.
    pub(crate) fn word(&mut self) -> &'a [u8]
        ensures value { result.now ≡ word self.old }
        ensures rest { self.new ≡ drop 1 self.old }
    {
        self.words.next().unwrap_or(b"")
    }

    // The next word as a number.
    pub(crate) fn number(&mut self) -> Result<usize, Fault>
        ensures value { result_ok result ≡ unsigned_of (word self.old) }
        ensures rest { self.new ≡ drop 1 self.old }
    {
        let number = unsigned(self.word()).ok_or(Fault::NotUnsigned)?;
        Ok(number as usize)
    }

    // The next word as a signed number.
    pub(crate) fn signed(&mut self) -> Result<i64, Fault>
        ensures value { result_ok result ≡ signed_of (word self.old) }
        ensures rest { self.new ≡ drop 1 self.old }
    {
        signed(self.word()).ok_or(Fault::NotSigned)
    }

    // The next word as the base of a window.
    pub(crate) fn base(&mut self) -> Result<u8, Fault>
        ensures value { result_ok result ≡ base_of (unsigned_of (word self.old)) }
        ensures rest { self.new ≡ drop 1 self.old }
    {
        let number = self.number().map_err(|_| Fault::NotBase)?;
        u8::try_from(number).map_err(|_| Fault::NotBase)
    }

    // The next word as HEX. It may be empty, but it has to be there.
    pub(crate) fn hex(&mut self) -> Result<&'a [u8], Fault>
        ensures value { option_map (λ hex. hex.now) (result_ok result) ≡ hex_in (first self.old) }
        ensures rest { self.new ≡ drop 1 self.old }
    {
        let hex = self.words.next().ok_or(Fault::WordMissing)?;
        if is_hex(hex) {
            Ok(hex)
        } else {
            Err(Fault::NotHex)
        }
    }

    // No word may be left.
    pub(crate) fn end(&self) -> Result<(), Fault>
        ensures { result_ok result ≡ ended (Some tt) self.now }
    {
        if self.words.is_done() {
            Ok(())
        } else {
            Err(Fault::WordsLeft)
        }
    }
}
