// Which line is which command.
#![tactic(auto)]

mod arguments;
mod command;
mod fault;
mod keyword;
mod read;

pub use command::{Command, Misread, RoomChoice, RoomKind};
pub use fault::Fault;
pub use keyword::Keyword;
pub use read::read_command;
