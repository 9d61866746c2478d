ghost use Rattle.std.specs.Prelude.{◌≡◌};
ghost use Rattle.std.specs.Option.{ok_or};
ghost use Rattle.commands.specs.Commands.{keyword_of};
ghost use Rattle.commands.specs.declared.command.Misread.TheVariants.{NoSuchCommand};

use crate::command::Misread;
use std::fmt;

// The first word of each command.
#[derive(Clone, Copy, Debug, PartialEq, Eq)]
pub enum Keyword {
    Room,
    Record,
    Size,
    Held,
    Look,
    Put,
    Clear,
    Take,
    Give,
}

// The keyword that a word is.
impl TryFrom<&[u8]> for Keyword {
    type Error = Misread;

    ghost try_from_gives = { λ word read. read ≡ ok_or (keyword_of word.now) NoSuchCommand };

    fn try_from(word: &[u8]) -> Result<Keyword, Misread> {
        match word {
            b"room" => Ok(Keyword::Room),
            b"record" => Ok(Keyword::Record),
            b"size" => Ok(Keyword::Size),
            b"held" => Ok(Keyword::Held),
            b"look" => Ok(Keyword::Look),
            b"put" => Ok(Keyword::Put),
            b"clear" => Ok(Keyword::Clear),
            b"take" => Ok(Keyword::Take),
            b"give" => Ok(Keyword::Give),
            _ => Err(Misread::NoSuchCommand),
        }
    }
}

// How the command is written.
impl fmt::Display for Keyword {
    fn fmt<W: fmt::Write>(&self, f: &mut fmt::Formatter<W>) -> fmt::Result {
        f.write_str(match self {
            Keyword::Room => {
                "room slot, room record HEX, room window B slot or room window B record HEX"
            }
            Keyword::Record => "record",
            Keyword::Size => "size",
            Keyword::Held => "held K",
            Keyword::Look => "look C",
            Keyword::Put => "put C V",
            Keyword::Clear => "clear C",
            Keyword::Take => "take K",
            Keyword::Give => "give K",
        })
    }
}
