// What holds of all that is remembered.
ghost use Rattle.std.specs.Prelude.{◌≤◌, ℕ, List};
ghost use Rattle.ctr_directory.specs.declared.directory.Directory.{Directory};
ghost use Rattle.ctr_directory.specs.Exact.{IsExact};

/// Where more pages are counted, what is remembered is exact as it was. The call does nothing: what it ensures holds of each.
pub fn growth_keeps_all()
    ensures { (counted more : ℕ) (pages : ℕ → List ℕ) (d : Directory) → counted ≤ more → IsExact counted pages d → IsExact more pages d }
{}
