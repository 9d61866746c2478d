ghost use Rattle.rooms.specs.Refusals.{refusal_number, refusal_place, bad_record_number, bad_record_place};

use refusals::Refusal;

// Why a room refuses a call.
#[derive(Clone, Copy, PartialEq, Eq, Debug)]
pub enum RoomRefusal {
    NoSuchCell,
    LatchRefused,
}

impl Refusal for RoomRefusal {
    ghost number = { refusal_number };

    ghost place = { refusal_place };

    fn number(&self) -> u8 {
        match self {
            RoomRefusal::NoSuchCell => 13,
            RoomRefusal::LatchRefused => 14,
        }
    }

    fn place(&self) -> usize {
        match self {
            RoomRefusal::NoSuchCell | RoomRefusal::LatchRefused => 0,
        }
    }
}

// Why bytes are no record.
#[derive(Clone, Copy, PartialEq, Eq, Debug)]
pub enum BadRecord {
    Length,
    // the cell with the lowest wrong mark
    Mark(usize),
    Latches,
}

impl Refusal for BadRecord {
    ghost number = { bad_record_number };

    ghost place = { bad_record_place };

    fn number(&self) -> u8 {
        match self {
            BadRecord::Length | BadRecord::Mark(_) | BadRecord::Latches => 17,
        }
    }

    fn place(&self) -> usize {
        match self {
            BadRecord::Length | BadRecord::Mark(_) | BadRecord::Latches => 0,
        }
    }
}
