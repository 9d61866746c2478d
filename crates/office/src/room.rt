ghost use Rattle.std.specs.Prelude.{◌≡◌, Some, Ok, Err};
ghost use Rattle.rooms.specs.Calls.{answer_to, after_call};
ghost use Rattle.rooms.specs.Meaning.{empty, size_of, latch_count};
ghost use Rattle.rooms.specs.Record.{decoded, Spoils};
ghost use Rattle.office.specs.Rooms.{meaning_of, record_of, part};

use rooms::{BadRecord, Cells, RecordRoom, Room, RoomAnswer, RoomCall, SlotRoom, Window, answer};

// The room that the office works on, of any kind. `Room` has a constant, so no `dyn Room` could stand for the four.
#[derive(Drop)]
pub enum OfficeRoom {
    Slot(SlotRoom),
    Record(RecordRoom),
    SlotWindow(Window<SlotRoom>),
    RecordWindow(Window<RecordRoom>),
}

impl OfficeRoom {
    // A new slot room, or a window of that base over one.
    pub fn slot(base: Option<u8>) -> OfficeRoom
        ensures { meaning_of result ≡ part base (empty 64 8) }
    {
        match base {
            None => OfficeRoom::Slot(SlotRoom::new()),
            Some(base) => OfficeRoom::SlotWindow(Window::new(SlotRoom::new(), base)),
        }
    }

    // A record room over a copy of the bytes, or a window of that base over one.
    pub fn record(base: Option<u8>, bytes: &[u8]) -> Result<OfficeRoom, BadRecord>
        ensures { elim result [ Ok room ↦ (record_of room ≡ Some bytes.now) × (meaning_of room ≡ part base (decoded bytes.now)) | Err why ↦ Spoils why bytes.now ] }
    {
        let room = RecordRoom::open(bytes)?;
        match base {
            None => Ok(OfficeRoom::Record(room)),
            Some(base) => Ok(OfficeRoom::RecordWindow(Window::new(room, base))),
        }
    }

    // Does one call.
    pub fn answer(&mut self, call: RoomCall) -> RoomAnswer
        ensures answer { result ≡ answer_to (meaning_of self.old) call }
        ensures after { meaning_of self.new ≡ after_call (meaning_of self.old) call }
    {
        match self {
            OfficeRoom::Slot(room) => answer(room, call),
            OfficeRoom::Record(room) => answer(room, call),
            OfficeRoom::SlotWindow(room) => answer(room, call),
            OfficeRoom::RecordWindow(room) => answer(room, call),
        }
    }

    pub fn size(&self) -> usize
        ensures { result ≡ size_of (meaning_of self.now) }
    {
        match self {
            OfficeRoom::Slot(room) => room.size(),
            OfficeRoom::Record(room) => room.size(),
            OfficeRoom::SlotWindow(room) => room.size(),
            OfficeRoom::RecordWindow(room) => room.size(),
        }
    }

    pub fn latch_count(&self) -> usize
        ensures { result ≡ latch_count (meaning_of self.now) }
    {
        match self {
            OfficeRoom::Slot(room) => room.latch_count(),
            OfficeRoom::Record(room) => room.latch_count(),
            OfficeRoom::SlotWindow(room) => room.latch_count(),
            OfficeRoom::RecordWindow(room) => room.latch_count(),
        }
    }

    // The bytes of the record, where the room is one or a window over one.
    pub fn bytes(&self) -> Option<[u8; RecordRoom::LENGTH]>
        ensures { result ≡ record_of self.now }
    {
        match self {
            OfficeRoom::Record(room) => Some(*room.bytes()),
            OfficeRoom::RecordWindow(window) => Some(*window.below().bytes()),
            OfficeRoom::Slot(_) | OfficeRoom::SlotWindow(_) => None,
        }
    }
}
