ghost use Rattle.std.specs.Prelude.{◌≡◌, ℕ, ◌+◌, ◌-◌, ◌<◌, ◌≤◌, true, false, List, length, Some, slice_range};
ghost use Rattle.tokens.specs.Tokens.{reserved, sign, worded, signed, first_symbol, first_width, tokens_from};
ghost use Rattle.tokens.specs.Lexing.{symbol, with_token, sign_at, Spelt};
ghost use Rattle.tokens.specs.declared.token.Token.TheVariants.{EndOfText};

use crate::class::Class;
use crate::lexeme::Lexeme;
use crate::token::{Lexed, Token};

// The first token at or after the offset `from`.
pub fn next_token(text: &[u8], from: usize) -> Lexed<'_>
    ensures tokens { (names : List (List ℕ)) → with_token names result.place result.token result.end text.now ≡ tokens_from names from text.now }
    ensures spelt { Spelt text.now result.token result.place result.end }
    ensures within { result.end ≤ length text.now }
    ensures ended { result.token ≡ EndOfText → result.place ≡ length text.now }
{
    let start = from.min(text.len());
    let place = start + Class::Blank.run(&text[start..]);
    let (token, width) = first_token(&text[place..]);
    Lexed {
        token,
        place,
        end: place + width,
    }
}

// The token that a text begins with, and its width.
fn first_token(text: &[u8]) -> (Token<'_>, usize)
    ensures symbol { (names : List (List ℕ)) → symbol names result.0 ≡ first_symbol names text.now }
    ensures width { result.1 ≡ first_width text.now }
    ensures spelt { Spelt text.now result.0 0 result.1 }
{
    match text {
        [] => (Token::EndOfText, 0),
        [b, ..] if Class::Letter.has(*b) => {
            let width = Class::Letter.run(text);
            (word_token(&text[..width]), width)
        }
        [b, ..] if Class::Digit.has(*b) => {
            let width = Class::Digit.run(text);
            (Token::Number(&text[..width]), width)
        }
        [b, rest @ ..] => {
            let (lexeme, width) = sign(*b, rest.starts_with(b"="));
            (sign_token(lexeme), width)
        }
    }
}

// A word is reserved or a name.
fn word_token(part: &[u8]) -> Token<'_>
    ensures symbol { (names : List (List ℕ)) → symbol names result ≡ Some (worded names part.now (reserved part.now)) }
    ensures spelt { (text : List ℕ) (p q : ℕ) → part.now ≡ slice_range text p q → Spelt text result p q }
{
    match reserved(part) {
        Some(lexeme) => Token::Keyword(lexeme, part),
        None => Token::Name(part),
    }
}

fn sign_token<'a>(lexeme: Option<Lexeme>) -> Token<'a>
    ensures symbol { (names : List (List ℕ)) → symbol names result ≡ Some (signed lexeme) }
    ensures spelt { (text : List ℕ) (p q : ℕ) → sign_at text p ≡ lexeme → Spelt text result p q }
{
    match lexeme {
        Some(lexeme) => Token::Sign(lexeme),
        None => Token::Stray,
    }
}

// The reserved word that a word is.
fn reserved(part: &[u8]) -> Option<Lexeme>
    ensures { result ≡ reserved part.now }
{
    match part {
        b"given" => Some(Lexeme::Given),
        b"skip" => Some(Lexeme::Skip),
        b"leave" => Some(Lexeme::Leave),
        b"if" => Some(Lexeme::If),
        b"then" => Some(Lexeme::Then),
        b"else" => Some(Lexeme::Else),
        b"end" => Some(Lexeme::End),
        b"while" => Some(Lexeme::While),
        b"do" => Some(Lexeme::Do),
        b"hold" => Some(Lexeme::Hold),
        b"true" => Some(Lexeme::True),
        b"false" => Some(Lexeme::False),
        b"not" => Some(Lexeme::Not),
        b"and" => Some(Lexeme::And),
        _ => None,
    }
}

// The sign that begins with a byte, by whether `=` follows it, and the width of a token that begins so.
fn sign(b: u8, equals: bool) -> (Option<Lexeme>, usize)
    ensures { result ≡ sign b equals }
{
    match b as char {
        '+' => (Some(Lexeme::Plus), 1),
        '-' => (Some(Lexeme::Minus), 1),
        '*' => (Some(Lexeme::Times), 1),
        '=' => (Some(Lexeme::Equal), 1),
        ';' => (Some(Lexeme::Semicolon), 1),
        ',' => (Some(Lexeme::Comma), 1),
        '(' => (Some(Lexeme::Open), 1),
        ')' => (Some(Lexeme::Close), 1),
        '[' => (Some(Lexeme::OpenSquare), 1),
        ']' => (Some(Lexeme::CloseSquare), 1),
        ':' if equals => (Some(Lexeme::Becomes), 2),
        '<' if equals => (Some(Lexeme::AtMost), 2),
        _ => (None, 1),
    }
}
