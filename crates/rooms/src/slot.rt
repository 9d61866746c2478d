ghost use Rattle.std.specs.Prelude.{◌≡◌, length};

use crate::latch::{is_held, turn};
use crate::refusal::RoomRefusal;
use crate::room::{Cells, Room};

const CELLS: usize = 64;

const LATCHES: usize = 8;

// A room kept in memory: 64 cells and 8 latches.
#[derive(Drop)]
pub struct SlotRoom {
    cells: [Option<i64>; CELLS],
    latches: [bool; LATCHES],
    // how long the arrays are, for those who only know a room
    ghost sized: { (length cells ≡ 64) × (length latches ≡ 8) },
}

impl SlotRoom {
    ghost use Rattle.rooms.specs.Meaning.{empty, cell_answer, cell_after};
    ghost use Rattle.rooms.specs.Kinds.{slot_meaning};

    // Every cell unfilled, every latch free.
    pub fn new() -> SlotRoom
        ensures { slot_meaning result ≡ empty 64 8 }
    {
        SlotRoom {
            cells: [None; CELLS],
            latches: [false; LATCHES],
        }
    }

    // Puts or clears a cell.
    fn write(&mut self, c: usize, v: Option<i64>) -> Result<(), RoomRefusal>
        ensures answer { result ≡ cell_answer (slot_meaning self.old) c }
        ensures after { slot_meaning self.new ≡ cell_after (slot_meaning self.old) c v }
    {
        if c >= CELLS {
            return Err(RoomRefusal::NoSuchCell);
        }
        // By index: what `get_mut` promises does not say what the cells are after the write.
        self.cells[c] = v;
        Ok(())
    }
}

impl Cells for SlotRoom {
    ghost use Rattle.rooms.specs.Kinds.{slot_meaning};

    ghost meaning = { slot_meaning };

    fn size(&self) -> usize {
        CELLS
    }

    fn get(&self, c: usize) -> Option<i64> {
        *self.cells.get(c)?
    }

    fn put(&mut self, c: usize, n: i64) -> Result<(), RoomRefusal> {
        self.write(c, Some(n))
    }

    fn clear(&mut self, c: usize) -> Result<(), RoomRefusal> {
        self.write(c, None)
    }
}

impl Room for SlotRoom {
    const LATCHES: usize = LATCHES;

    ghost LATCHES = { 8 };

    fn latch_count(&self) -> usize {
        Self::LATCHES
    }

    fn held(&self, k: usize) -> bool {
        is_held(&self.latches, k)
    }

    fn take(&mut self, k: usize) -> Result<(), RoomRefusal> {
        turn(&mut self.latches, k, true)
    }

    fn give(&mut self, k: usize) -> Result<(), RoomRefusal> {
        turn(&mut self.latches, k, false)
    }
}
