#![tactic(auto)]

mod calls;
mod format;
mod latch;
mod record;
mod refusal;
mod room;
mod slot;
mod window;

pub use calls::{RoomAnswer, RoomCall, answer, answer_alike};
pub use record::RecordRoom;
pub use refusal::{BadRecord, RoomRefusal};
pub use room::{Cells, Room};
pub use slot::SlotRoom;
pub use window::Window;
