// What programs share that answer commands line by line: reading a line, its words, the numbers, bytes and texts in it, and
// the count of answers. docs/commands.md has the rules.
#![tactic(auto)]

mod hex;
mod line;
mod number;
mod tally;
mod text;
mod words;

pub use hex::{Hex, HexError, hex_fill, is_hex};
pub use line::read_line;
pub use number::{signed, unsigned};
pub use tally::Tally;
pub use text::{is_text, unescape};
pub use words::{Words, passed_over};
