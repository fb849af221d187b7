// What a visitor is given is the log; and what a writer goes on behind once the older generation is
// dropped.
ghost use Rattle.std.specs.Prelude.{◌≡◌, ℕ, false, List, Ok};
ghost use Rattle.ctr_types.specs.declared.file.File.{File};
ghost use Rattle.ctr_home.specs.disk_Image.{Image};
ghost use Rattle.ctr_log.specs.Logs.{Log};
ghost use Rattle.ctr_log.specs.Kept.{log_in, kept_log, Forgets};
ghost use Rattle.ctr_log.specs.Visits.{file_visits, kept_visits, visit_bytes, AreInPlace, AreNumbered, IsFront};
ghost use Rattle.ctr_log.specs.LogChecks.{file_damage, kept_damage, sound_visits, sound_kept_visits};

/// Of each image the visitor is given the records of its log, each where its bytes stand, numbered
/// without gaps from the root's number on.
pub fn visits_are_the_log()
    ensures records { (file first : ℕ) (image : Image) → visit_bytes (kept_visits file first image) ≡ kept_log file first image }
    ensures places { (file first : ℕ) (image : Image) → AreInPlace image (kept_visits file first image) }
    ensures numbers { (file first : ℕ) (image : Image) → AreNumbered first (kept_visits file first image) }
{}

/// The records of the batches before the first that is damaged are the first of all, and all of them where
/// no check fails.
pub fn sound_visits_are_first()
    ensures file { (file : File) (first : ℕ) (bytes : List ℕ) → IsFront (sound_visits file first bytes) (file_visits file first bytes) }
    ensures all { (file : File) (first : ℕ) (bytes : List ℕ) → file_damage file first bytes ≡ Ok tt → sound_visits file first bytes ≡ file_visits file first bytes }
    ensures kept { (file first : ℕ) (image : Image) → IsFront (sound_kept_visits file first image) (kept_visits file first image) }
    ensures kept_all { (file first : ℕ) (image : Image) → kept_damage file first image ≡ Ok tt → sound_kept_visits file first image ≡ kept_visits file first image }
    ensures bytes { (file : File) (first : ℕ) (bytes : List ℕ) → visit_bytes (file_visits file first bytes) ≡ log_in bytes }
{}

/// Once the root names the newer of two generations, by its first number, a writer that forgets the
/// older one (`LogFile::forget_older`) goes on behind the newer one alone.
pub fn the_newer_is_kept_alone()
    ensures { (log : Log) → Forgets log (record log { older = false }) }
{}
