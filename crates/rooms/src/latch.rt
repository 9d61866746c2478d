ghost use Rattle.std.specs.Prelude.{◌≡◌, if◌then◌else◌, slice_set};
ghost use Rattle.rooms.specs.Meaning.{is_held, can_turn, accepted_if};
ghost use Rattle.rooms.specs.declared.refusal.RoomRefusal.TheVariants.{LatchRefused};

use crate::refusal::RoomRefusal;

// Whether latch `k` is there and held.
#[tactic(auto, unfolding(crate::specs::Meaning::is_held))]
pub(crate) fn is_held(latches: &[bool], k: usize) -> bool
    ensures { result ≡ is_held latches.now k }
{
    latches.get(k) == Some(&true)
}

// Turns latch `k` held or free, which has to be there and the other way before.
#[tactic(auto, using(std::proofs::lemmas::Bool::Decides::nat_tests), unfolding(crate::specs::Meaning::is_held, crate::specs::Meaning::is_free))]
pub(crate) fn turn(latches: &mut [bool], k: usize, on: bool) -> Result<(), RoomRefusal>
    ensures answer { result ≡ accepted_if (can_turn latches.old k on) LatchRefused }
    ensures after { latches.new ≡ (if can_turn latches.old k on then slice_set latches.old k on else latches.old) }
{
    if latches.get(k) != Some(&!on) {
        return Err(RoomRefusal::LatchRefused);
    }
    // By index: what `get_mut` promises does not say what the latches are after the write.
    latches[k] = on;
    Ok(())
}
