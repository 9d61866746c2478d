ghost use Rattle.std.specs.Prelude.{◌≡◌, ℕ, ◌≤◌, Some, None};
ghost use Rattle.rooms.specs.Meaning.{Meaning, size_of, latch_count, cell, is_held, cell_answer, cell_after, take_answer, take_after, give_answer, give_after};

use crate::refusal::RoomRefusal;

// Numbered cells. The meaning has the latches too, so that a change of a cell promises them unchanged.
pub trait Cells {
    ghost meaning: { Self → Meaning };

    // How many cells there are.
    fn size(&self) -> usize
        ensures value { result ≡ size_of (meaning self.now) }
        ensures few { result ≤ 64 };

    // What cell `c` holds, if it is there and filled.
    fn get(&self, c: usize) -> Option<i64>
        ensures { result ≡ cell (meaning self.now) c };

    // Fills cell `c` with `n`.
    fn put(&mut self, c: usize, n: i64) -> Result<(), RoomRefusal>
        ensures answer { result ≡ cell_answer (meaning self.old) c }
        ensures after { meaning self.new ≡ cell_after (meaning self.old) c (Some n) };

    // Leaves cell `c` unfilled.
    fn clear(&mut self, c: usize) -> Result<(), RoomRefusal>
        ensures answer { result ≡ cell_answer (meaning self.old) c }
        ensures after { meaning self.new ≡ cell_after (meaning self.old) c None };
}

// Cells with latches added.
pub trait Room: Cells {
    // How many latches each room of this kind has.
    const LATCHES: usize;

    ghost LATCHES: { ℕ };

    // How many latches this room has: `LATCHES`. Each kind answers it itself, since it is the one that shows that its meaning has as many.
    fn latch_count(&self) -> usize
        ensures kind { result ≡ LATCHES }
        ensures value { result ≡ latch_count (Self.Cells.meaning self.now) }
        ensures few { result ≤ 8 };

    // Whether latch `k` is there and held.
    fn held(&self, k: usize) -> bool
        ensures { result ≡ is_held (Self.Cells.meaning self.now).latches k };

    // Takes latch `k`, which has to be there and free.
    fn take(&mut self, k: usize) -> Result<(), RoomRefusal>
        ensures answer { result ≡ take_answer (Self.Cells.meaning self.old) k }
        ensures after { Self.Cells.meaning self.new ≡ take_after (Self.Cells.meaning self.old) k };

    // Gives latch `k` back, which has to be there and held.
    fn give(&mut self, k: usize) -> Result<(), RoomRefusal>
        ensures answer { result ≡ give_answer (Self.Cells.meaning self.old) k }
        ensures after { Self.Cells.meaning self.new ≡ give_after (Self.Cells.meaning self.old) k };
}
