ghost use Rattle.std.specs.Prelude.{◌≡◌};
ghost use Rattle.console.specs.Words.{words_of};
ghost use Rattle.commands.specs.Commands.{command_of, kind_asked};
ghost use Rattle.rooms.specs.Meaning.{empty};
ghost use Rattle.office.specs.Replies.{Chooses, Does, Opens, class_of, tallied};
ghost use Rattle.office.specs.Rooms.{meaning_of};

use crate::reply::Reply;
use crate::room::OfficeRoom;
use commands::{Command, RoomChoice, RoomKind, read_command};
use console::{Tally, hex_fill};
use rooms::{BadRecord, RecordRoom, RoomAnswer};

// The room that the office works on, and the count of what it answered.
#[derive(Drop)]
pub struct Desk {
    room: OfficeRoom,
    tally: Tally,
}

impl Desk {
    // Over a new slot room.
    pub fn new() -> Desk
        ensures room { meaning_of result.room ≡ empty 64 8 }
        ensures tally { result.tally ≡ record { commands = 0; refused = 0; errors = 0 } }
    {
        Desk {
            room: OfficeRoom::slot(None),
            tally: Tally::new(),
        }
    }

    pub fn room(&self) -> &OfficeRoom
        ensures { result.now ≡ self.now.room }
    {
        &self.room
    }

    pub fn tally(&self) -> Tally
        ensures { result ≡ self.now.tally }
    {
        self.tally
    }

    // Does what one line asks for.
    pub fn reply(&mut self, line: &[u8]) -> Reply
        ensures does { Does (command_of (words_of line.now)) self.old.room self.new.room result }
        ensures counts { self.new.tally ≡ tallied (class_of result) self.old.tally }
    {
        let reply = obey(&mut self.room, line);
        count(&mut self.tally, reply);
        reply
    }
}

fn count(tally: &mut Tally, reply: Reply)
    ensures { tally.new ≡ tallied (class_of reply) tally.old }
{
    match reply {
        Reply::Answer(_, RoomAnswer::Change(Err(_))) | Reply::Opened(Err(_)) => tally.refused(),
        Reply::Record(None) | Reply::Misread(_) => tally.error(),
        Reply::Answer(_, _) | Reply::Opened(Ok(())) | Reply::Record(Some(_)) => tally.ok(),
    }
}

fn obey(room: &mut OfficeRoom, line: &[u8]) -> Reply
    ensures { Does (command_of (words_of line.now)) room.old room.new result }
{
    match read_command(line) {
        Ok(Command::Room(choice)) => Reply::Opened(choose(room, choice)),
        Ok(Command::Record) => Reply::Record(room.bytes()),
        Ok(Command::Call(call)) => Reply::Answer(call, room.answer(call)),
        Err(misread) => Reply::Misread(misread),
    }
}

// A refused choice leaves the room before it.
fn choose(room: &mut OfficeRoom, choice: RoomChoice<'_>) -> Result<(), BadRecord>
    ensures { Chooses choice.entry.base (kind_asked choice.entry.kind) room.old room.new (Reply.Opened result) }
{
    *room = open(choice)?;
    Ok(())
}

// The room that is chosen, new.
fn open(choice: RoomChoice<'_>) -> Result<OfficeRoom, BadRecord>
    ensures { Opens choice.entry.base (kind_asked choice.entry.kind) result }
{
    match choice.kind {
        RoomKind::Slot => Ok(OfficeRoom::slot(choice.base)),
        RoomKind::Record(hex) => {
            let mut bytes = [0; RecordRoom::LENGTH];
            // what `read_command` takes is HEX, so only its length can be wrong
            hex_fill(hex, &mut bytes).map_err(|_| BadRecord::Length)?;
            OfficeRoom::record(choice.base, &bytes)
        }
    }
}
