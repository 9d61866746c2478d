use rooms::{Cells, Room, RoomCall, SlotRoom, Window, answer_alike};

// A window of base 10 over one of base 20 is a window of base 30, but for its size.
#[test]
fn windows_add_up(rt: HostRuntime) {
    let mut two = Window::new(Window::new(SlotRoom::new(), 20), 10);
    let mut one = Window::new(SlotRoom::new(), 30);
    let calls = [
        RoomCall::Put(5, -1),
        RoomCall::Get(5),
        RoomCall::Put(21, 7),
        RoomCall::Get(21),
        RoomCall::Clear(5),
        RoomCall::Get(5),
        RoomCall::Take(7),
        RoomCall::Held(7),
        RoomCall::Take(7),
        RoomCall::Give(7),
        RoomCall::Give(7),
        RoomCall::LatchCount,
    ];
    assert!(rt; answer_alike(&mut two, &mut one, &calls));
    assert_eq!(rt; two.below().below().get(51), Some(7));
    assert_eq!(rt; one.below().get(51), Some(7));
    assert!(rt; !answer_alike(&mut two, &mut one, &[RoomCall::Size]));
    assert_eq!(rt; (two.size(), one.size()), (22, 32));
}
