// What follows where no step has anything to do. A call does nothing: what it ensures is the law.
ghost use Rattle.std.specs.Prelude.{ℕ};
ghost use Rattle.ctr_pvs.specs.redo_States.{State};
ghost use Rattle.ctr_actions.specs.Sites.{site_of};
ghost use Rattle.ctr_actions.specs.Actions.{Action, Owes};
ghost use Rattle.ctr_actions.specs.Cleaning.{IsCleaning};
ghost use Rattle.ctr_clean.specs.Choosing.{passes_below};
ghost use Rattle.ctr_clean.specs.Steps.{Locks, IsFreeOf};
ghost use Rattle.ctr_clean.specs.Passing.{HasNoStep, HasStep};

/// Where no step has anything to do in a state, none of the cleaner's actions for which a step is written may be logged there, unless its row is
/// locked.
pub fn nothing_is_left_to_clean()
    ensures { (low : ℕ) (locks : Locks) (s : State) (a : Action) → HasNoStep low locks s → HasStep a → IsFreeOf locks a (site_of s)
        → IsCleaning (passes_below low s.tables) a (site_of s) → Owes 0 a (site_of s) → ⊥ }
{}
