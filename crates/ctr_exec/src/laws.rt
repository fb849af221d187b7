// The sessions of a script as it begins. A call does nothing: what it ensures is the law.
ghost use Rattle.std.specs.Prelude.{◌≡◌};
ghost use Rattle.ctr_actions.specs.Sites.{site_of};
ghost use Rattle.ctr_store.specs.Store.{View};
ghost use Rattle.ctr_control.specs.kept_Turns.{Start};
ghost use Rattle.ctr_control.specs.kept_Walk.{mind_at};
ghost use Rattle.ctr_control.specs.stops_World.{KeepsWorld};
ghost use Rattle.ctr_exec.specs.declared.sessions.Sessions.{Sessions as SessionsAt};
ghost use Rattle.ctr_exec.specs.Sessions.{AreFresh, ShowsSessions};

use ctr_disk::Disk;

/// Where a World begins, sessions of its script that have begun nothing are in it.
pub fn a_script_begins_in_a_world<D: Disk>()
    ensures { (c : Start) (opened : D) (v : View D) (h : SessionsAt) → KeepsWorld D.Disk c opened v (mind_at (site_of v.now)) → AreFresh h → h.script.lines ≡ c.lines → h.stuck ≡ c.stuck
        → ShowsSessions D.Disk c opened v h (mind_at (site_of v.now)) }
{}
