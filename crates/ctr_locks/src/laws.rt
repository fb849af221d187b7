// What locks show of the model. A call does nothing: what it ensures is the law.
ghost use Rattle.ctr_locks.specs.Shows.{BusyIsTheModels, LockedIsTheModels, LockLeavesLocks, UseLeavesLocks, HoldShows, RoomLeavesLocks, ReleaseLeavesLocks, BeginLeavesLocks};

/// A change of what one session has, and a session that begins: what the locks show goes on to the state that the
/// model's change leaves. Which name an entry has is given, and stays.
pub fn key_locks_show()
    ensures lock { LockLeavesLocks }
    ensures uses { UseLeavesLocks }
    ensures hold { HoldShows }
    ensures room { RoomLeavesLocks }
    ensures release { ReleaseLeavesLocks }
    ensures begin { BeginLeavesLocks }
{}

/// Whatever state the locks show, who keeps a session from a name is the model's, and who else has a key's lock where
/// no other entry has the name.
pub fn key_locks_are_the_models()
    ensures busy { BusyIsTheModels }
    ensures locked { LockedIsTheModels }
{}
