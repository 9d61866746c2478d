use thiserror::Error;

// What is wrong with the words after a keyword.
#[derive(Clone, Copy, Debug, PartialEq, Eq, Error)]
pub enum Fault {
    #[error("a word is missing")]
    WordMissing,
    #[error("there are words too many, or a space too many")]
    WordsLeft,
    #[error("a number from 0 to 18446744073709551615 is wanted")]
    NotUnsigned,
    #[error("a number from -9223372036854775808 to 9223372036854775807 is wanted")]
    NotSigned,
    #[error("HEX is two digits for each byte, 0 to 9 and a to f")]
    NotHex,
    #[error("a window's base is a number from 0 to 255")]
    NotBase,
    #[error("there is no such room")]
    NoSuchRoom,
}
