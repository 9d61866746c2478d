use crate::fault::Fault;
use crate::keyword::Keyword;
use rooms::RoomCall;
use thiserror::Error;

// A line of the command language.
#[derive(Clone, Copy, Debug, PartialEq, Eq)]
pub enum Command<'a> {
    Room(RoomChoice<'a>),
    Record,
    Call(RoomCall),
}

// Which room to open: one of a kind, or a window of that base over one.
#[derive(Clone, Copy, Debug, PartialEq, Eq)]
pub struct RoomChoice<'a> {
    pub base: Option<u8>,
    pub kind: RoomKind<'a>,
}

// A record is chosen by its bytes in hexadecimal.
#[derive(Clone, Copy, Debug, PartialEq, Eq)]
pub enum RoomKind<'a> {
    Slot,
    Record(&'a [u8]),
}

// Why a line is no command. It prints as what is wrong, and below that how to write it.
#[derive(Clone, Copy, Debug, PartialEq, Eq, Error)]
pub enum Misread {
    #[error("there is no such command\n  commands are room, record, size, held, look, put, clear, take and give")]
    NoSuchCommand,
    #[error("{1}\n  write: {0}")]
    Form(Keyword, Fault),
}
