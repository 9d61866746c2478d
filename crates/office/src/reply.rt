use commands::Misread;
use rooms::{BadRecord, RecordRoom, RoomAnswer, RoomCall};

// What the office answers to a line.
#[derive(Clone, Copy, Debug, PartialEq, Eq)]
pub enum Reply {
    // what the room answers to a call
    Answer(RoomCall, RoomAnswer),
    // a room was opened, unless the bytes are no record
    Opened(Result<(), BadRecord>),
    // the bytes of the room's record, if it is kept in one
    Record(Option<[u8; RecordRoom::LENGTH]>),
    Misread(Misread),
}
