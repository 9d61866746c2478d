#![tactic(auto, using(crate::proofs::Windows::windowed))]

ghost use Rattle.std.specs.Prelude.{◌≡◌, ◌+◌, if◌then◌else◌, Some, None, nat_lt};
ghost use Rattle.rooms.specs.Meaning.{cell_answer, cell_after, take_answer, take_after, give_answer, give_after};
ghost use Rattle.rooms.specs.Window.{below_after};
ghost use Rattle.rooms.specs.Kinds.{window_meaning};
ghost use Rattle.rooms.specs.declared.refusal.RoomRefusal.TheVariants.{NoSuchCell};

use crate::refusal::RoomRefusal;
use crate::room::{Cells, Room};

// The most cells that a window shows.
const CELLS: usize = 32;

// A part of the room below, from cell `base` on, as a room.
#[derive(Drop)]
pub struct Window<R: Room> {
    below: R,
    base: u8,
}

impl<R: Room> Window<R> {
    pub fn new(below: R, base: u8) -> Window<R>
        ensures room { result.below ≡ below }
        ensures base { result.base ≡ base }
    {
        Window { below, base }
    }

    // The room below, for questions.
    pub fn below(&self) -> &R
        ensures { result.now ≡ self.now.below }
    {
        &self.below
    }

    // Which cell below the window's cell `c` is, where a window can show so many.
    fn reached(&self, c: usize) -> Option<usize>
        ensures { result ≡ (if nat_lt c 32 then Some (self.now.base + c) else None) }
    {
        (c < CELLS).then(|| usize::from(self.base) + c)
    }
}

// A method that promises more than the trait says the trait's part again, since its clauses stand in the place of the trait's.
impl<R: Room> Cells for Window<R> {
    ghost meaning = { window_meaning R.Cells.meaning };

    fn size(&self) -> usize {
        self.below
            .size()
            .saturating_sub(usize::from(self.base))
            .min(CELLS)
    }

    fn get(&self, c: usize) -> Option<i64> {
        self.below.get(self.reached(c)?)
    }

    fn put(&mut self, c: usize, n: i64) -> Result<(), RoomRefusal>
        ensures answer { result ≡ cell_answer (window_meaning R.Cells.meaning self.old) c }
        ensures after { window_meaning R.Cells.meaning self.new ≡ cell_after (window_meaning R.Cells.meaning self.old) c (Some n) }
        ensures base { self.new.base ≡ self.old.base }
        ensures below { R.Cells.meaning self.new.below ≡ below_after self.old.base (R.Cells.meaning self.old.below) c (Some n) }
    {
        let at = self.reached(c).ok_or(RoomRefusal::NoSuchCell)?;
        self.below.put(at, n)
    }

    fn clear(&mut self, c: usize) -> Result<(), RoomRefusal>
        ensures answer { result ≡ cell_answer (window_meaning R.Cells.meaning self.old) c }
        ensures after { window_meaning R.Cells.meaning self.new ≡ cell_after (window_meaning R.Cells.meaning self.old) c None }
        ensures base { self.new.base ≡ self.old.base }
        ensures below { R.Cells.meaning self.new.below ≡ below_after self.old.base (R.Cells.meaning self.old.below) c None }
    {
        let at = self.reached(c).ok_or(RoomRefusal::NoSuchCell)?;
        self.below.clear(at)
    }
}

impl<R: Room> Room for Window<R> {
    const LATCHES: usize = R::LATCHES;

    ghost LATCHES = { R.Room.LATCHES };

    fn latch_count(&self) -> usize {
        self.below.latch_count()
    }

    fn held(&self, k: usize) -> bool {
        self.below.held(k)
    }

    fn take(&mut self, k: usize) -> Result<(), RoomRefusal>
        ensures answer { result ≡ take_answer (window_meaning R.Cells.meaning self.old) k }
        ensures after { window_meaning R.Cells.meaning self.new ≡ take_after (window_meaning R.Cells.meaning self.old) k }
        ensures base { self.new.base ≡ self.old.base }
        ensures below { R.Cells.meaning self.new.below ≡ take_after (R.Cells.meaning self.old.below) k }
    {
        self.below.take(k)
    }

    fn give(&mut self, k: usize) -> Result<(), RoomRefusal>
        ensures answer { result ≡ give_answer (window_meaning R.Cells.meaning self.old) k }
        ensures after { window_meaning R.Cells.meaning self.new ≡ give_after (window_meaning R.Cells.meaning self.old) k }
        ensures base { self.new.base ≡ self.old.base }
        ensures below { R.Cells.meaning self.new.below ≡ give_after (R.Cells.meaning self.old.below) k }
    {
        self.below.give(k)
    }
}
