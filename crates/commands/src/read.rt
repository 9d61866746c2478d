ghost use Rattle.std.specs.Prelude.{◌≡◌, drop};
ghost use Rattle.std.specs.Option.{option_map};
ghost use Rattle.std.specs.Result.{result_ok, result_err};
ghost use Rattle.console.specs.Words.{words_of};
ghost use Rattle.commands.specs.Commands.{asked, room_asked, kind_asked, word, ended, only_kind, only_room, keyword_of, arguments_of, command_of, Names};

use crate::arguments::Arguments;
use crate::command::{Command, Misread, RoomChoice, RoomKind};
use crate::fault::Fault;
use crate::keyword::Keyword;
use rooms::RoomCall;

// The command that a line is, or why it is none.
pub fn read_command(line: &[u8]) -> Result<Command<'_>, Misread>
    ensures command { option_map asked (result_ok result) ≡ command_of (words_of line.now) }
    ensures names { Names (result_err result) (keyword_of (word (words_of line.now))) }
{
    let mut words = Arguments::new(line);
    let keyword = Keyword::try_from(words.word())?;
    arguments(keyword, &mut words).map_err(|fault| Misread::Form(keyword, fault))
}

// What the words after a keyword ask for.
fn arguments<'a>(keyword: Keyword, words: &mut Arguments<'a>) -> Result<Command<'a>, Fault>
    ensures { option_map asked (result_ok result) ≡ arguments_of keyword words.old }
{
    let command = match keyword {
        Keyword::Room => Command::Room(room(words)?),
        Keyword::Record => Command::Record,
        Keyword::Size => Command::Call(RoomCall::Size),
        Keyword::Held => Command::Call(RoomCall::Held(words.number()?)),
        Keyword::Look => Command::Call(RoomCall::Get(words.number()?)),
        Keyword::Put => Command::Call(RoomCall::Put(words.number()?, words.signed()?)),
        Keyword::Clear => Command::Call(RoomCall::Clear(words.number()?)),
        Keyword::Take => Command::Call(RoomCall::Take(words.number()?)),
        Keyword::Give => Command::Call(RoomCall::Give(words.number()?)),
    };
    words.end()?;
    Ok(command)
}

// A kind of room, or `window`, a base and a kind.
fn room<'a>(words: &mut Arguments<'a>) -> Result<RoomChoice<'a>, Fault>
    ensures { ended (option_map room_asked (result_ok result)) words.new ≡ only_room (word words.old) (drop 1 words.old) }
{
    match words.word() {
        b"window" => {
            let base = Some(words.base()?);
            let first = words.word();
            let kind = kind(first, words)?;
            Ok(RoomChoice { base, kind })
        }
        first => {
            let kind = kind(first, words)?;
            Ok(RoomChoice { base: None, kind })
        }
    }
}

// The kind of room that begins with the word `first`.
fn kind<'a>(first: &'a [u8], words: &mut Arguments<'a>) -> Result<RoomKind<'a>, Fault>
    ensures { ended (option_map kind_asked (result_ok result)) words.new ≡ only_kind first.now words.old }
{
    match first {
        b"slot" => Ok(RoomKind::Slot),
        b"record" => Ok(RoomKind::Record(words.hex()?)),
        _ => Err(Fault::NoSuchRoom),
    }
}
