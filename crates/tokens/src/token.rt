ghost use Rattle.std.specs.Prelude.{◌≡◌, Some, Decides};
ghost use Rattle.tokens.specs.Lexing.{lexeme_of, is_lexeme};

use crate::lexeme::Lexeme;

// A token. Words and numbers keep the stretch of the text where they were found.
#[derive(Clone, Copy, PartialEq, Eq, Debug)]
pub enum Token<'a> {
    Name(&'a [u8]),
    Number(&'a [u8]),
    Keyword(Lexeme, &'a [u8]),
    Sign(Lexeme),
    // a byte that starts no token
    Stray,
    EndOfText,
}

impl Token<'_> {
    // The lexeme that it is, if it is one.
    pub fn lexeme(self) -> Option<Lexeme>
        ensures { result ≡ lexeme_of self.entry }
    {
        match self {
            Token::Keyword(lexeme, _) | Token::Sign(lexeme) => Some(lexeme),
            _ => None,
        }
    }

    // Whether it is this lexeme.
    pub fn is(self, wanted: Lexeme) -> bool
        ensures value { result ≡ is_lexeme (lexeme_of self.entry) wanted }
        ensures same { Decides result (lexeme_of self.entry ≡ Some wanted) }
    {
        self.lexeme() == Some(wanted)
    }
}

// A token with the offset of its first byte, and the offset at which it ends.
#[derive(Clone, Copy, PartialEq, Eq, Debug)]
pub struct Lexed<'a> {
    pub token: Token<'a>,
    pub place: usize,
    pub end: usize,
}
