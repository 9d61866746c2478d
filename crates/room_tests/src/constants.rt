ghost use Rattle.std.specs.Prelude.{◌≡◌};

use rooms::{Cells, RecordRoom, Room, SlotRoom, Window};

// Any slot room has 64 cells, also one of which nothing else is known: its type says so.
fn cells_in(room: &SlotRoom) -> usize
    ensures { result ≡ 64 }
{
    room.size()
}

// The constants as Rust sees them, and the count of a window over a window.
#[test]
fn latches_of_each_kind(rt: HostRuntime) {
    assert_eq!(rt; cells_in(&SlotRoom::new()), 64);
    assert_eq!(rt; SlotRoom::LATCHES, 8);
    assert_eq!(rt; RecordRoom::LATCHES, 4);
    assert_eq!(rt; Window::<SlotRoom>::LATCHES, 8);
    assert_eq!(rt; Window::<RecordRoom>::LATCHES, 4);
    assert_eq!(rt; Window::<Window<RecordRoom>>::LATCHES, 4);
    assert_eq!(rt;
        Window::new(Window::new(SlotRoom::new(), 20), 10).latch_count(),
        8
    );
}
