// What a crash leaves of calls of the log and of the homes. A call does nothing: what it ensures is the law.
ghost use Rattle.std.specs.Prelude.{◌≡◌, ◌≤◌, ◌<◌, ◌⊎◌, ℕ, List, [], ◌∷◌};
ghost use Rattle.ctr_log.specs.types_File.{File as FileOf};
ghost use Rattle.ctr_pool.specs.ctr_disk.Image.{Image};
ghost use Rattle.ctr_log.specs.home_Root.{Root};
ghost use Rattle.ctr_log.specs.home_Block.TheVariants.{Page, Root as RootBlock};
ghost use Rattle.ctr_log.specs.home_Roots.{IsRoot, root_block};
ghost use Rattle.ctr_log.specs.home_Blocks.{BlockValue, zero_bytes};
ghost use Rattle.ctr_log.specs.home_Writing.{IsOldOrNewValue};
ghost use Rattle.ctr_log.specs.Kept.{other_file, KeepsPrefix};
ghost use Rattle.ctr_redo.specs.States.{page_limit, state_of, with_more, page_at};
ghost use Rattle.ctr_redo.specs.Fitting.{MayFollow};
ghost use Rattle.ctr_redo.specs.Images.{records_in, stored_in, IsSound, FoldsTo, FoldsFront, MayStand, CanCount, MayBeginSecond, newer_root, CanDropOlder, new_state, IsNewDatabase};

/// A crash in a flush of records that may follow the log leaves an image that is sound and folds to the state with a
/// prefix of them.
pub fn a_flush_leaves_a_prefix()
    ensures { (root : Root) (file : FileOf) (waiting : List (List ℕ)) (old new : Image) → IsSound root old → MayFollow root file waiting old → KeepsPrefix file root.file root.first waiting old new
        → FoldsFront (state_of (stored_in root old)) (records_in waiting) new }
{}

/// A crash in the writing of a page that may stand at home leaves an image that is sound and folds to the same state:
/// whether the page has its old or its new value there.
pub fn a_writing_home_leaves_the_state()
    ensures { (root : Root) (p : ℕ) (v : BlockValue) (old new : Image) → IsSound root old → MayStand root old p v → IsOldOrNewValue (Page p) v old new
        → FoldsTo new (state_of (stored_in root old)) }
{}

/// A crash in the root's writing that counts more pages, which are blank, leaves an image that is sound and folds to the
/// same state, or to the same but for the count.
pub fn more_pages_can_be_counted()
    ensures { (root more : Root) (old new : Image) → IsSound root old → CanCount root more old → IsOldOrNewValue RootBlock (root_block more) old new
        → FoldsTo new (state_of (stored_in root old)) ⊎ FoldsTo new (record (state_of (stored_in root old)) { counted = more.pages }) }
{}

/// A crash while a second generation begins leaves an image that is sound and folds to the same state: whether its
/// Checkpoint is found or not.
pub fn a_generation_leaves_the_state()
    ensures { (root : Root) (checkpoint : List ℕ) (old new : Image) → IsSound root old → MayBeginSecond root checkpoint old → KeepsPrefix (other_file root.file) root.file root.first (checkpoint ∷ []) old new
        → FoldsTo new (state_of (stored_in root old)) }
{}

/// A crash in the root's writing that drops the older of two generations leaves an image that is sound and folds to the
/// same state: whether the older one is kept or not. The root that is written passes its checks.
pub fn an_older_generation_can_go()
    ensures leaves { (root : Root) (start : ℕ) (old new : Image) → IsSound root old → CanDropOlder root start old → IsOldOrNewValue RootBlock (root_block (newer_root start root)) old new
        → FoldsTo new (state_of (stored_in root old)) }
    ensures passes { (root : Root) (start : ℕ) (image : Image) → IsSound root image → CanDropOlder root start image → IsRoot (newer_root start root) }
{}

/// A new database is sound, and folds to the state in which no page has anything and no transaction was.
pub fn a_new_database_is_empty()
    ensures { (image : Image) → IsNewDatabase image → FoldsTo image new_state }
{}

/// A page that isn't counted has nothing, whatever records may follow the log.
pub fn a_page_that_isnt_counted_is_blank()
    ensures { (root : Root) (file : FileOf) (waiting : List (List ℕ)) (image : Image) (p : ℕ) → MayFollow root file waiting image → root.pages ≤ p → p < page_limit
        → page_at p (state_of (with_more (records_in waiting) (stored_in root image))).pages ≡ zero_bytes 4096 }
{}
