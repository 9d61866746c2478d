ghost use Rattle.rules.specs.Refusals.{refusal_number, refusal_place, refusal_of};
ghost use Rattle.std.specs.Prelude.{◌≡◌};

use crate::fault::Fault;
use refusals::Refusal;

// Why a text is not read into a table.
#[derive(Clone, Copy, PartialEq, Eq, Debug)]
pub enum ReadRefusal {
    TooLong,
    Empty,
    Misfit(usize),
    Limit(usize),
    TableFull,
}

impl Refusal for ReadRefusal {
    ghost number = { refusal_number };

    ghost place = { refusal_place };

    fn number(&self) -> u8 {
        match self {
            ReadRefusal::TooLong => 4,
            ReadRefusal::Empty => 5,
            ReadRefusal::Misfit(_) => 6,
            ReadRefusal::Limit(_) => 7,
            ReadRefusal::TableFull => 8,
        }
    }

    fn place(&self) -> usize {
        match self {
            ReadRefusal::Misfit(place) | ReadRefusal::Limit(place) => *place,
            ReadRefusal::TooLong | ReadRefusal::Empty | ReadRefusal::TableFull => 0,
        }
    }
}

impl From<Fault> for ReadRefusal {
    ghost from_gives = { λ fault refusal. refusal ≡ refusal_of fault };

    fn from(fault: Fault) -> ReadRefusal {
        match fault {
            Fault::Misfit(place) => ReadRefusal::Misfit(place),
            Fault::Limit(place) => ReadRefusal::Limit(place),
        }
    }
}
