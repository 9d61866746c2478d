#![tactic(auto, using(crate::proofs::Decoded::recorded))]

ghost use Rattle.std.specs.Prelude.{◌≡◌, true, false, Some, None, Ok, Err};
ghost use Rattle.rooms.specs.Meaning.{cell_answer, cell_after, turn_answer, turn_after, take_answer, take_after, give_answer, give_after};
ghost use Rattle.rooms.specs.Record.{IsRecord, Spoils, bytes_after, bytes_turned, latch_byte, latches_in, decoded};

use crate::format::{
    CELL_BYTES, CELLS, LATCH_BYTE, LATCHES, LENGTH, byte_of, cell_in, latches_in, nine_for,
    wrong_mark,
};
use crate::latch::{is_held, turn};
use crate::refusal::{BadRecord, RoomRefusal};
use crate::room::{Cells, Room};

// A room kept as the bytes of a record: 32 cells and 4 latches.
#[derive(Drop)]
pub struct RecordRoom {
    bytes: [u8; LENGTH],
    ghost is_record: { IsRecord bytes },
}

impl RecordRoom {
    // How many bytes a record has.
    pub const LENGTH: usize = LENGTH;

    // A room over a copy of the bytes, which stay as they are until a call names their cell.
    pub fn open(bytes: &[u8]) -> Result<RecordRoom, BadRecord>
        ensures { elim result [ Ok room ↦ room.bytes ≡ bytes.now | Err why ↦ Spoils why bytes.now ] }
    {
        let bytes: &[u8; LENGTH] = bytes.try_into().map_err(|_| BadRecord::Length)?;
        if let Some(c) = wrong_mark(bytes) {
            return Err(BadRecord::Mark(c));
        }
        if bytes[LATCH_BYTE] > 15 {
            return Err(BadRecord::Latches);
        }
        Ok(RecordRoom { bytes: *bytes })
    }

    // The record as it is now: bytes that open again as a room of the same meaning.
    pub fn bytes(&self) -> &[u8; LENGTH]
        ensures value { result.now ≡ self.now.bytes }
        ensures opens { IsRecord result.now }
    {
        &self.bytes
    }

    // Writes the nine bytes of a cell for what it now holds.
    fn write(&mut self, c: usize, v: Option<i64>) -> Result<(), RoomRefusal>
        ensures answer { result ≡ cell_answer (decoded self.old.bytes) c }
        ensures after { decoded self.new.bytes ≡ cell_after (decoded self.old.bytes) c v }
        ensures bytes { self.new.bytes ≡ bytes_after self.old.bytes c v }
    {
        if c >= CELLS {
            return Err(RoomRefusal::NoSuchCell);
        }
        // By index: what `as_chunks_mut` promises does not say what the bytes are after the write.
        let at = CELL_BYTES * c;
        self.bytes[at..at + CELL_BYTES].copy_from_slice(&nine_for(v));
        Ok(())
    }

    fn latches(&self) -> [bool; LATCHES]
        ensures { result ≡ latches_in (latch_byte self.now.bytes) }
    {
        latches_in(self.bytes[LATCH_BYTE])
    }

    // Turns latch `k` held or free, which has to be there and the other way before.
    #[tactic(auto, using(crate::proofs::Decoded::decoded_turned))]
    fn turn(&mut self, k: usize, on: bool) -> Result<(), RoomRefusal>
        ensures answer { result ≡ turn_answer (decoded self.old.bytes) k on }
        ensures after { decoded self.new.bytes ≡ turn_after (decoded self.old.bytes) k on }
        ensures bytes { self.new.bytes ≡ bytes_turned self.old.bytes k on }
    {
        let mut latches = self.latches();
        turn(&mut latches, k, on)?;
        self.bytes[LATCH_BYTE] = byte_of(latches);
        Ok(())
    }
}

// A method that promises more than the trait says the trait's part again, since its clauses stand in the place of the trait's.
impl Cells for RecordRoom {
    ghost meaning = { λ s. decoded s.bytes };

    fn size(&self) -> usize {
        CELLS
    }

    fn get(&self, c: usize) -> Option<i64> {
        let (cells, _) = self.bytes.as_chunks();
        cell_in(cells.get(c)?)
    }

    fn put(&mut self, c: usize, n: i64) -> Result<(), RoomRefusal>
        ensures answer { result ≡ cell_answer (decoded self.old.bytes) c }
        ensures after { decoded self.new.bytes ≡ cell_after (decoded self.old.bytes) c (Some n) }
        ensures bytes { self.new.bytes ≡ bytes_after self.old.bytes c (Some n) }
    {
        self.write(c, Some(n))
    }

    fn clear(&mut self, c: usize) -> Result<(), RoomRefusal>
        ensures answer { result ≡ cell_answer (decoded self.old.bytes) c }
        ensures after { decoded self.new.bytes ≡ cell_after (decoded self.old.bytes) c None }
        ensures bytes { self.new.bytes ≡ bytes_after self.old.bytes c None }
    {
        self.write(c, None)
    }
}

impl Room for RecordRoom {
    const LATCHES: usize = LATCHES;

    ghost LATCHES = { 4 };

    fn latch_count(&self) -> usize {
        Self::LATCHES
    }

    fn held(&self, k: usize) -> bool {
        is_held(&self.latches(), k)
    }

    fn take(&mut self, k: usize) -> Result<(), RoomRefusal>
        ensures answer { result ≡ take_answer (decoded self.old.bytes) k }
        ensures after { decoded self.new.bytes ≡ take_after (decoded self.old.bytes) k }
        ensures bytes { self.new.bytes ≡ bytes_turned self.old.bytes k true }
    {
        self.turn(k, true)
    }

    fn give(&mut self, k: usize) -> Result<(), RoomRefusal>
        ensures answer { result ≡ give_answer (decoded self.old.bytes) k }
        ensures after { decoded self.new.bytes ≡ give_after (decoded self.old.bytes) k }
        ensures bytes { self.new.bytes ≡ bytes_turned self.old.bytes k false }
    {
        self.turn(k, false)
    }
}
