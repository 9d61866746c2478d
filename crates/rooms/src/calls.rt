ghost use Rattle.std.specs.Prelude.{◌≡◌, true, Decides};
ghost use Rattle.rooms.specs.Calls.{answer_to, after_call, answers_to, LeftBy};

use crate::refusal::RoomRefusal;
use crate::room::Room;

// A call of a room, as a value.
#[derive(Clone, Copy, PartialEq, Eq, Debug)]
pub enum RoomCall {
    Size,
    LatchCount,
    Get(usize),
    Held(usize),
    Put(usize, i64),
    Clear(usize),
    Take(usize),
    Give(usize),
}

// What a room answers.
#[derive(Clone, Copy, PartialEq, Eq, Debug)]
pub enum RoomAnswer {
    Count(usize),
    Cell(Option<i64>),
    IsHeld(bool),
    // to put, clear, take and give
    Change(Result<(), RoomRefusal>),
}

// Does one call on any room.
pub fn answer<R: Room>(room: &mut R, call: RoomCall) -> RoomAnswer
    ensures answer { result ≡ answer_to (R.Cells.meaning room.old) call }
    ensures after { R.Cells.meaning room.new ≡ after_call (R.Cells.meaning room.old) call }
{
    match call {
        RoomCall::Size => RoomAnswer::Count(room.size()),
        RoomCall::LatchCount => RoomAnswer::Count(room.latch_count()),
        RoomCall::Get(c) => RoomAnswer::Cell(room.get(c)),
        RoomCall::Held(k) => RoomAnswer::IsHeld(room.held(k)),
        RoomCall::Put(c, n) => RoomAnswer::Change(room.put(c, n)),
        RoomCall::Clear(c) => RoomAnswer::Change(room.clear(c)),
        RoomCall::Take(k) => RoomAnswer::Change(room.take(k)),
        RoomCall::Give(k) => RoomAnswer::Change(room.give(k)),
    }
}

// Does the same call on two rooms, and says whether they answered alike.
fn both_alike<A: Room, B: Room>(a: &mut A, b: &mut B, call: RoomCall) -> bool
    ensures answers { Decides result (answer_to (A.Cells.meaning a.old) call ≡ answer_to (B.Cells.meaning b.old) call) }
    ensures a_after { A.Cells.meaning a.new ≡ after_call (A.Cells.meaning a.old) call }
    ensures b_after { B.Cells.meaning b.new ≡ after_call (B.Cells.meaning b.old) call }
{
    answer(a, call) == answer(b, call)
}

// Does the same calls on two rooms, and says whether they answered alike throughout.
pub fn answer_alike<A: Room, B: Room>(a: &mut A, b: &mut B, calls: &[RoomCall]) -> bool
    ensures answers { Decides result (answers_to (A.Cells.meaning a.old) calls.now ≡ answers_to (B.Cells.meaning b.old) calls.now) }
    ensures a_after { LeftBy calls.now (A.Cells.meaning a.old) (A.Cells.meaning a.new) }
    ensures b_after { LeftBy calls.now (B.Cells.meaning b.old) (B.Cells.meaning b.new) }
    ensures meaning_is_all { A.Cells.meaning a.old ≡ B.Cells.meaning b.old → (result ≡ true) × (A.Cells.meaning a.new ≡ B.Cells.meaning b.new) }
{
    let mut alike = true;
    for call in calls {
        alike &= both_alike(a, b, *call);
    }
    alike
}
