// Checks of numbers that are read.
ghost use Rattle.std.specs.Prelude.{◌≡◌, min, max};
ghost use Rattle.ctr_home.specs.Checks.{check_of};

use ctr_home::Check;

/// The number is the one that is wanted.
pub fn same(at: u64, want: u64, got: u64) -> Check
    ensures { result ≡ check_of at want got }
{
    Check { at, want, got }
}

/// The number isn't above a bound.
pub fn at_most(at: u64, most: u64, got: u64) -> Check
    ensures { result ≡ check_of at (min most got) got }
{
    Check {
        at,
        want: most.min(got),
        got,
    }
}

/// The number isn't below a bound.
pub fn at_least(at: u64, least: u64, got: u64) -> Check
    ensures { result ≡ check_of at (max least got) got }
{
    Check {
        at,
        want: least.max(got),
        got,
    }
}
