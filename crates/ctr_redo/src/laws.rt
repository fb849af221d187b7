// What the state of an image keeps, whatever a call does to the image. A call does nothing: what it ensures is the law.
ghost use Rattle.std.specs.Prelude.{◌≡◌, ◌≤◌, ◌<◌, ◌+◌, ◌-◌, ℕ, List, [], ◌∷◌, ◌++◌, length, take};
ghost use Rattle.ctr_pool.specs.Pages.{PageHeld};
ghost use Rattle.ctr_meta.specs.Effects.{listed};
ghost use Rattle.ctr_meta.specs.rec_Record.{Record};
ghost use Rattle.ctr_meta.specs.rec_Record.TheVariants.{Checkpoint};
ghost use Rattle.ctr_redo.specs.Overlaid.{overlaid, by_home};
ghost use Rattle.ctr_redo.specs.States.{page_limit, State, Stored, state_of, step, steps, with_more, with_home, without_older, next_of, LieBelow, AreHome, page_at};

/// A page of the state is its home, overlaid in order by each record with a greater LSN than the home's stamp.
pub fn a_page_is_its_home_overlaid()
    ensures { (p : ℕ) (i : Stored) → p < page_limit → page_at p (state_of i).pages ≡ by_home p (i.homes p).lsn i.first i.records (i.homes p).body }
{}

/// Records behind the log are steps of the state, one after another: any prefix of records is as many steps.
pub fn records_are_steps()
    ensures one { (r : Record) (i : Stored) → LieBelow (next_of i) i.homes → state_of (with_more (r ∷ []) i) ≡ step r (state_of i) }
    ensures prefix { (k : ℕ) (rs : List Record) (i : Stored) → LieBelow (next_of i) i.homes → state_of (with_more (take k rs) i) ≡ steps (take k rs) (state_of i) }
{}

/// A page of which the log's records make the same page as of what is home can be written home: the state is the
/// same, whatever records come behind the log. Such a page is one with all records so far whose LSN is durable.
pub fn a_page_can_go_home()
    ensures same { (p : ℕ) (v : PageHeld) (more : List Record) (i : Stored) → overlaid p i.first i.records v ≡ overlaid p i.first i.records (i.homes p)
        → state_of (with_more more (with_home p v i)) ≡ state_of (with_more more i) }
    ensures durable { (p first : ℕ) (log waiting : List Record) (home : PageHeld) → (overlaid p first (log ++ waiting) home).lsn < first + length log
        → overlaid p first log (overlaid p first (log ++ waiting) home) ≡ overlaid p first log home }
{}

/// A Checkpoint that lists the tables is no step of the state.
pub fn a_checkpoint_is_no_step()
    ensures { (next : ℕ) (lists : List ℕ) (s : State) → listed next lists ≡ s.tables → step (Checkpoint next lists) s ≡ s }
{}

/// Where each page's home has the records of the older generation, and the newer one begins with a Checkpoint, the
/// older one can be dropped. A home that has all records below an LSN has those of a generation that ends there.
pub fn older_records_can_go()
    ensures same { (older newer : List Record) (next : ℕ) (lists : List ℕ) (i : Stored) → i.records ≡ older ++ Checkpoint next lists ∷ newer → AreHome i.first older i.homes
        → state_of (without_older older (Checkpoint next lists ∷ newer) i) ≡ state_of i }
    ensures home { (p first : ℕ) (older newer : List Record) (since : ℕ) (home : PageHeld) → first + length older ≤ since
        → overlaid p first (take (since - first) (older ++ newer)) home ≡ home → overlaid p first older home ≡ home }
{}
