// What a Checkpoint needs of a sound state.
ghost use Rattle.std.specs.Prelude.{◌≡◌, Ok};
ghost use Rattle.ctr_store.specs.Checkpoints.{checkpoint_need};
ghost use Rattle.ctr_record_effects.specs.ctr_redo.States.{State};
ghost use Rattle.ctr_record_effects.specs.Standing.{HasSoundArea};

use ctr_record_laws::pages_are_in_bounds;

/// The tables of a sound state meet the need of a Checkpoint: no transaction has more heads than there can be slots on all
/// pages, which are fewer than 2^62. A call does nothing: what it ensures is the law.
pub fn a_sound_state_can_be_listed()
    ensures { (s : State) → HasSoundArea s → checkpoint_need s.tables ≡ Ok tt }
{
    pages_are_in_bounds();
}
