// Turns of a session's transaction without a record.
ghost use Rattle.std.specs.Prelude.{◌≡◌, ℕ, None, Some, IfOk, OnOk, OnErr, length};
ghost use Rattle.std.specs.Ordering.{nat_cmp};
ghost use Rattle.std.specs.FinMap.Entries.{find};
ghost use Rattle.ctr_model.specs.declared.state.State.{State};
ghost use Rattle.ctr_model.specs.declared.state.Transaction.{Transaction};
ghost use Rattle.ctr_model.specs.State.{begun, with_transaction, without_transaction};
ghost use Rattle.ctr_paged.specs.actions_Sites.{Site};
ghost use Rattle.ctr_paged.specs.Shown.{IsShown};
ghost use Rattle.ctr_txn.specs.Held.{TxnHeld, txn_of, scene_with, IsOneOfEight, IsReading};
ghost use Rattle.ctr_txn.specs.Steps.{SetsTxn, txn_begun, txn_undoing};
ghost use Rattle.ctr_txn.specs.Rooms.{StaysRoom};

use crate::laws::the_run_is_of_the_sessions;
use crate::txns::Txns;
use ctr_meta::Meta;
use ctr_paged::a_turn_without_a_record_is_shown;
use ctr_types::OutOfMemory;
use std::alloc::Global;

impl Txns {
    /// BEGIN: a session's transaction begins over these tables, with the number of commits that it sees. Where memory is refused,
    /// nothing changes.
    pub fn begin(&mut self, alloc: Global, meta: &Meta, s: u8) -> Result<u64, OutOfMemory>
        requires one { IsOneOfEight s }
        requires out { txn_of s self.old ≡ None }
        ensures number { IfOk result (λ n. n ≡ self.old.answered) }
        ensures sets { OnOk result (SetsTxn s (Some (txn_begun meta.now.tables self.old)) self.old self.new) }
        ensures numbers { self.new.numbers ≡ self.old.numbers }
        ensures err { OnErr result (self.new ≡ self.old) }
        ensures items { OnOk result (StaysRoom self.old self.new) }
        // What is shown is the state in which it began.
        ensures shows { (low : ℕ) (site : Site) (state : State) → site.tables ≡ meta.now.tables → find nat_cmp s state.sessions ≡ None → IsShown low site (scene_with self.old state)
            → OnOk result (IsShown low site (scene_with self.new (with_transaction s (begun state.answered) state))) }
    {
        a_turn_without_a_record_is_shown();
        the_run_is_of_the_sessions();
        self.counts_sessions();
        self.begin_txn(alloc, meta, s)
    }

    /// The transaction of a session that has no number ends, without a record. It takes no memory.
    pub fn end_reader(&mut self, s: u8)
        requires one { IsOneOfEight s }
        requires reader { IsReading s self.old }
        ensures sets { SetsTxn s None self.old self.new }
        ensures numbers { self.new.numbers ≡ self.old.numbers }
        ensures items { StaysRoom self.old self.new }
        // What is shown is the state without it.
        ensures shows { (low : ℕ) (site : Site) (state : State) → IsShown low site (scene_with self.old state) → IsShown low site (scene_with self.new (without_transaction s state)) }
    {
        a_turn_without_a_record_is_shown();
        the_run_is_of_the_sessions();
        self.counts_sessions();
        self.reads_unasked(s);
        self.end(s)
    }

    /// A rollback of several turns begins: from now on the session's snapshot isn't live, and nothing is said of what it sees. It takes
    /// no memory.
    pub fn begin_rollback(&mut self, s: u8)
        requires one { IsOneOfEight s }
        ensures sets { (t : TxnHeld) → txn_of s self.old ≡ Some t → SetsTxn s (Some (txn_undoing t)) self.old self.new }
        ensures numbers { self.new.numbers ≡ self.old.numbers }
        ensures items { (t : TxnHeld) → txn_of s self.old ≡ Some t → StaysRoom self.old self.new }
        // What is shown stays.
        ensures shows { (low : ℕ) (site : Site) (state : State) (b : TxnHeld) (t : Transaction) → txn_of s self.old ≡ Some b → find nat_cmp s state.sessions ≡ Some t
            → IsShown low site (scene_with self.old state) → IsShown low site (scene_with self.new state) }
    {
        a_turn_without_a_record_is_shown();
        the_run_is_of_the_sessions();
        self.counts_sessions();
        self.set_undoing(s)
    }
}
