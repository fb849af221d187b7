// What speaks against an act is what the model says. A call does nothing: what it ensures is the law.
ghost use Rattle.std.specs.Prelude.{◌≡◌, ℕ, ℤ, true, List, [], ◌∷◌, Option, Some, None};
ghost use Rattle.std.specs.Option.{option_map};
ghost use Rattle.ctr_types.specs.declared.statement.Statement.{Statement as Asks};
ghost use Rattle.ctr_types.specs.declared.tape.Act.{Act};
ghost use Rattle.ctr_types.specs.declared.tape.Refusal.TheVariants as refusal;
ghost use Rattle.ctr_model.specs.Database.{table_at};
ghost use Rattle.ctr_model.specs.State.{view};
ghost use Rattle.ctr_model.specs.Refusals.{table_of, presence_refusals, value_refusals, busy_by, locked_by, schema_changed_by, row_changed_by, refusal_of};
ghost use Rattle.ctr_area.specs.Images.{is_live};
ghost use Rattle.ctr_names.specs.Search.{IsEntryFound, IsNoneFound};
ghost use Rattle.ctr_wishes.specs.actions_Sites.{Site};
ghost use Rattle.ctr_locks.specs.Held.{IsInOrder, locked_among};
ghost use Rattle.ctr_locks.specs.Shows.{IsOnlyEntry};
ghost use Rattle.ctr_asking.specs.declared.asker.Asker.{Asker as WhoAsks};
ghost use Rattle.ctr_asking.specs.Values.{bad_in};
ghost use Rattle.ctr_asking.specs.Causes.{presence_refused, busy_at, last_change, IsNewer};
ghost use Rattle.ctr_asking.specs.Asking.{Asking, HasPassed, FindsFor, sees_for};

use ctr_locks::key_locks_are_the_models;
use ctr_wishes::reading::views::{
    the_newest_change_of_a_name_is_told, what_changed_answers_is_in_the_model,
    what_find_answers_is_in_the_view, what_newest_answers_is_in_the_model,
};

/// What tells of the table's name, where a session asks in a scene that is shown: whether the table is there, who keeps the session from
/// the name, and, where nobody does, the last commit that made or dropped a table of it.
pub fn what_tells_of_a_name_is_the_models()
    ensures there { (asker : WhoAsks) (site : Site) (k : Asking asker site) (statement : Asks) (name : List ℕ) (found : Option ℕ) → FindsFor site k.txn name found
        → presence_refused statement found ≡ presence_refusals statement (table_at (view k.state k.t) name) }
    ensures found { (asker : WhoAsks) (site : Site) (k : Asking asker site) (name : List ℕ) (e : ℕ) → FindsFor site k.txn name (Some e) → IsEntryFound (sees_for site k.txn) name site.area e }
    ensures none { (asker : WhoAsks) (site : Site) (k : Asking asker site) (name : List ℕ) → FindsFor site k.txn name None → IsNoneFound (sees_for site k.txn) name site.area }
    ensures busy { (asker : WhoAsks) (site : Site) (k : Asking asker site) (statement : Asks) (name : List ℕ) → IsInOrder asker.locks.now
        → busy_at asker statement name ≡ busy_by k.state asker.s statement name }
    ensures changed { (asker : WhoAsks) (site : Site) (k : Asking asker site) (statement : Asks) (name : List ℕ) → busy_by k.state asker.s statement name ≡ None
        → last_change asker.txns.now.numbers.commits site k.txn.session.snapshot name 32 ≡ schema_changed_by k.state k.t name }
{
    key_locks_are_the_models();
    what_find_answers_is_in_the_view();
    what_changed_answers_is_in_the_model();
    the_newest_change_of_a_name_is_told();
}

/// What tells of values and of a key, where a session has found the table and nothing that tells of the name refuses it: the first bad
/// value, who else has the key's lock, and, where nobody has, the last commit that wrote the row.
pub fn what_tells_of_a_row_is_the_models()
    ensures values { (asker : WhoAsks) (site : Site) (k : Asking asker site) (statement : Asks) (name : List ℕ) (e : ℕ) → HasPassed k statement name e
        → value_refusals statement (table_at (view k.state k.t) name) ≡ option_map refusal.BadValue (bad_in statement site.area e) ∷ [] }
    ensures locked { (asker : WhoAsks) (site : Site) (k : Asking asker site) (statement : Asks) (name : List ℕ) (e : ℕ) (key : ℤ) → HasPassed k statement name e → IsInOrder asker.locks.now
        → locked_among asker.s e key asker.locks.now ≡ locked_by k.state asker.s name key }
    ensures newer { (asker : WhoAsks) (site : Site) (k : Asking asker site) (statement : Asks) (name : List ℕ) (e : ℕ) (key : ℤ) (n : Option ℕ) → HasPassed k statement name e
        → locked_by k.state asker.s name key ≡ None → IsNewer asker.txns.now.numbers.commits site k.txn.session.snapshot e key n → n ≡ row_changed_by k.state k.t name key }
{
    key_locks_are_the_models();
    what_tells_of_a_name_is_the_models();
    the_newest_change_of_a_name_is_told();
    what_changed_answers_is_in_the_model();
    what_find_answers_is_in_the_view();
    what_newest_answers_is_in_the_model();
}

/// A table that a session has found, and whose act isn't refused, is live, and nobody has dropped it; and whoever else has the lock of a key of
/// a table of the name has it in this entry.
pub fn a_table_that_is_free_is_undropped()
    ensures undropped { (asker : WhoAsks) (site : Site) (k : Asking asker site) (act : Act) (statement : Asks) (name : List ℕ) (e : ℕ) → table_of statement ≡ Some name → refusal_of k.state asker.s k.t act statement ≡ None
        → IsEntryFound (sees_for site k.txn) name site.area e → ((site.area.title e).name ≡ name) × (is_live (site.area.title e) ≡ true) × ((site.area.title e).dropper ≡ 0) }
    ensures only { (asker : WhoAsks) (site : Site) (k : Asking asker site) (act : Act) (statement : Asks) (name : List ℕ) (e : ℕ) (key : ℤ) → table_of statement ≡ Some name → refusal_of k.state asker.s k.t act statement ≡ None
        → IsEntryFound (sees_for site k.txn) name site.area e → IsOnlyEntry (λ e. (site.area.title e).name) asker.s e key asker.locks.now }
{
    the_newest_change_of_a_name_is_told();
    what_changed_answers_is_in_the_model();
}
