use crate::reply::Reply;
use crate::room::OfficeRoom;
use console::Hex;
use refusals::Refused;
use rooms::{BadRecord, RoomAnswer, RoomCall, RoomRefusal};
use std::fmt;

// A reply as it is printed, and under a refusal or an error what to do. `room` is the one that replied. What a refusal means is put into
// words here: the crate of the rooms is the terminal's too, and has none.
#[derive(Clone, Copy)]
pub struct Shown<'a> {
    pub room: &'a OfficeRoom,
    pub reply: &'a Reply,
}

impl fmt::Display for Shown<'_> {
    fn fmt<W: fmt::Write>(&self, f: &mut fmt::Formatter<W>) -> fmt::Result {
        match self.reply {
            Reply::Answer(call, RoomAnswer::Change(Err(why))) => {
                let refused = Refused(why);
                let cause = Cause {
                    room: self.room,
                    call,
                    why,
                };
                write!(f, "{refused}: {cause}")
            }
            Reply::Answer(_, RoomAnswer::Count(n)) => write!(f, "{n}"),
            Reply::Answer(_, RoomAnswer::Cell(Some(n))) => write!(f, "{n}"),
            Reply::Answer(_, RoomAnswer::Cell(None)) => f.write_str("nothing"),
            Reply::Answer(_, RoomAnswer::IsHeld(true)) => f.write_str("held"),
            Reply::Answer(_, RoomAnswer::IsHeld(false)) => f.write_str("free"),
            Reply::Answer(_, RoomAnswer::Change(Ok(()))) | Reply::Opened(Ok(())) => {
                f.write_str("ok")
            }
            Reply::Opened(Err(why)) => {
                let refused = Refused(why);
                let flaw = Flaw(why);
                write!(f, "{refused}: these bytes are no record\n  {flaw}")
            }
            Reply::Record(Some(bytes)) => write!(f, "{}", Hex(bytes)),
            Reply::Record(None) => f.write_str(
                "error: this room is kept in no record\n  open one by: room record HEX",
            ),
            Reply::Misread(why) => write!(f, "error: {why}"),
        }
    }
}

// Why a room refused a call, and what there is in it.
#[derive(Clone, Copy)]
struct Cause<'a> {
    room: &'a OfficeRoom,
    call: &'a RoomCall,
    why: &'a RoomRefusal,
}

impl fmt::Display for Cause<'_> {
    fn fmt<W: fmt::Write>(&self, f: &mut fmt::Formatter<W>) -> fmt::Result {
        let room = self.room;
        match (self.why, self.call) {
            (RoomRefusal::NoSuchCell, _) => {
                let cells = CellsOf(room);
                write!(f, "there is no such cell\n  this room has {cells}")
            }
            (RoomRefusal::LatchRefused, RoomCall::Take(k)) => {
                let latch = Latch(room, *k, "is held; it has to be given back first");
                write!(f, "latch {k} cannot be taken\n  {latch}")
            }
            (RoomRefusal::LatchRefused, RoomCall::Give(k)) => {
                let latch = Latch(room, *k, "is free already");
                write!(f, "latch {k} cannot be given back\n  {latch}")
            }
            (RoomRefusal::LatchRefused, _) => f.write_str("the latch refuses"),
        }
    }
}

// A latch of a room with its state, or how many latches there are where it is none of them.
#[derive(Clone, Copy)]
struct Latch<'a>(&'a OfficeRoom, usize, &'static str);

impl fmt::Display for Latch<'_> {
    fn fmt<W: fmt::Write>(&self, f: &mut fmt::Formatter<W>) -> fmt::Result {
        let Latch(room, k, state) = self;
        let latches = room.latch_count();
        if *k < latches {
            write!(f, "latch {k} {state}")
        } else {
            write!(f, "this room has {latches} latches, numbered from 0")
        }
    }
}

// The cells of a room.
#[derive(Clone, Copy)]
struct CellsOf<'a>(&'a OfficeRoom);

impl fmt::Display for CellsOf<'_> {
    fn fmt<W: fmt::Write>(&self, f: &mut fmt::Formatter<W>) -> fmt::Result {
        match self.0.size() {
            0 => f.write_str("no cells"),
            1 => f.write_str("cell 0 alone"),
            size => write!(f, "the cells 0 to {}", size - 1),
        }
    }
}

// What is wrong with bytes that are no record.
#[derive(Clone, Copy)]
struct Flaw<'a>(&'a BadRecord);

impl fmt::Display for Flaw<'_> {
    fn fmt<W: fmt::Write>(&self, f: &mut fmt::Formatter<W>) -> fmt::Result {
        match self.0 {
            BadRecord::Length => f.write_str("a record has 289 bytes, 578 digits"),
            BadRecord::Mark(c) => write!(
                f,
                "the mark of cell {c}, the ninth of its bytes, is neither 00 nor 01"
            ),
            BadRecord::Latches => f.write_str("the last byte, of the latches, is above 0f"),
        }
    }
}
