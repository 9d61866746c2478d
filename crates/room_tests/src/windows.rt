use rooms::{Cells, RecordRoom, Room, SlotRoom, Window};
use std::process::Abort;
use std::test::Fail;

// What a window writes into its first cell stands in the room below at the base, where that has such a cell.
fn writes_at_its_base<R: Room + Drop>(rt: &impl Abort, below: R, base: u8) {
    let at = usize::from(base);
    let there = at < below.size();
    let mut window = Window::new(below, base);
    assert_eq!(rt; window.put(0, 7).is_ok(), there);
    assert_eq!(rt; window.below().get(at) == Some(7), there);
}

#[test]
fn windows_reach_from_their_base(rt: HostRuntime) -> Result<(), Fail> {
    for base in [0, 31, 32, 63, 64, 255] {
        writes_at_its_base(&rt, SlotRoom::new(), base);
        let Ok(record) = RecordRoom::open(&[0; 289]) else {
            return Err(Fail::new("289 zero bytes are a record"));
        };
        writes_at_its_base(&rt, record, base);
    }
    Ok(())
}
