// What the transactions of sessions are to a run. A call does nothing: what it ensures is the law.
ghost use Rattle.std.specs.Prelude.{◌≡◌, ◌+◌, ◌≤◌, ℕ, true, None, Some, length, option_map};
ghost use Rattle.std.specs.Ordering.{nat_cmp};
ghost use Rattle.std.specs.FinMap.Entries.{find};
ghost use Rattle.ctr_model.specs.Maps.{without};
ghost use Rattle.ctr_meta.specs.Kept.{TablesKept};
ghost use Rattle.ctr_paged.specs.Moving.{held_as};
ghost use Rattle.ctr_txn.specs.declared.txn.Asked.{Asked};
ghost use Rattle.ctr_txn.specs.Held.{TxnHeld, TxnsHeld, txn_of, run_of, IsOneOfEight};
ghost use Rattle.ctr_txn.specs.Steps.{SetsTxn, AnswersNext};
ghost use Rattle.ctr_txn.specs.Rooms.{item_kept, HasItemRoom, StaysRoom};

/// The run has each session as its transaction has it; a change of one of them is a change of its own, and one that ends is gone.
pub fn the_run_is_of_the_sessions()
    ensures found { (s : ℕ) (a : TxnsHeld) → IsOneOfEight s → find nat_cmp s (run_of a).sessions ≡ option_map (λ (t : TxnHeld). t.session) (txn_of s a) }
    ensures sets { (s : ℕ) (t : TxnHeld) (old new : TxnsHeld) → IsOneOfEight s → length old.sessions ≡ 8 → SetsTxn s (Some t) old new
        → run_of new ≡ record (held_as s t.session (run_of old)) { commits = new.numbers.commits } }
    ensures same { (s : ℕ) (t u : TxnHeld) (old new : TxnsHeld) → txn_of s old ≡ Some t → u.session ≡ t.session → SetsTxn s (Some u) old new
        → run_of new ≡ record (run_of old) { commits = new.numbers.commits } }
    ensures ends { (s : ℕ) (old new : TxnsHeld) → IsOneOfEight s → SetsTxn s None old new
        → run_of new ≡ record (run_of old) { commits = new.numbers.commits; sessions = without nat_cmp s (run_of old).sessions } }
    ensures answers { (s : ℕ) (q : Asked) (old new : TxnsHeld) → AnswersNext s q old new
        → run_of new ≡ record (run_of old) { sessions = without nat_cmp s (run_of old).sessions; answered = old.answered + 1 } }
{}

/// What changes a session's transaction, and takes no more room for an item than was kept for it, leaves the room of all; and so
/// does the end of one.
pub fn the_room_of_all_stays()
    ensures changed { (s : ℕ) (t : TxnHeld) (old new : TxnsHeld) → IsOneOfEight s → length old.sessions ≡ 8 → SetsTxn s (Some t) old new
        → item_kept (Some t) ≤ item_kept (txn_of s old) → StaysRoom old new }
    ensures ended { (s : ℕ) (old new : TxnsHeld) → IsOneOfEight s → length old.sessions ≡ 8 → SetsTxn s None old new → StaysRoom old new }
{}

/// Where the room of all is there, a session for which room for an item is kept may add one without memory, and so may the cleaner.
pub fn room_that_is_kept_is_there()
    ensures session { (s : ℕ) (t : TxnHeld) (a : TxnsHeld) (k : TablesKept) → txn_of s a ≡ Some t → t.item ≡ true → HasItemRoom a k → 1 ≤ k.items_room }
    ensures cleaner { (a : TxnsHeld) (k : TablesKept) → a.cleaner ≡ true → HasItemRoom a k → 1 ≤ k.items_room }
{}
