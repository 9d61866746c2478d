// The tokens of a rule text. docs/rule-language.md has the rules.
#![tactic(auto)]

mod class;
mod lexeme;
mod scan;
mod token;

pub use class::Class;
pub use lexeme::Lexeme;
pub use scan::next_token;
pub use token::{Lexed, Token};
