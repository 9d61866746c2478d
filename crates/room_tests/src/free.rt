ghost use Rattle.std.specs.Prelude.{◌≡◌, ℕ, false};
ghost use Rattle.rooms.specs.Meaning.{is_held};

use rooms::{Cells, Room, SlotRoom};

// Gives back every held latch of any room.
fn free_all<R: Room>(room: &mut R)
    ensures cells { (R.Cells.meaning room.new).cells ≡ (R.Cells.meaning room.old).cells }
    ensures freed { (k : ℕ) → is_held (R.Cells.meaning room.new).latches k ≡ false }
{
    for k in 0..room.latch_count() {
        let _ = room.give(k);
    }
}

#[test]
fn every_latch_is_freed(rt: HostRuntime) {
    let mut room = SlotRoom::new();
    assert!(rt; room.put(3, 9).is_ok());
    assert!(rt; room.take(0).is_ok());
    assert!(rt; room.take(7).is_ok());
    free_all(&mut room);
    for k in 0..8 {
        assert!(rt; !room.held(k));
    }
    assert_eq!(rt; room.get(3), Some(9));
}
