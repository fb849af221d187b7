// Checks of numbers that are read, in their order.
ghost use Rattle.std.specs.Prelude.{◌≡◌, IfErr};
ghost use Rattle.ctr_home.specs.Checks.{judged, TellsApart};

use ctr_disk::{Damage, File, StoreFault};

/// A check of the number at a place of a file: it passes where what is there is what is wanted.
/// Where a bound is wanted, `want` is the bound that is passed, or else the number itself.
#[derive(Clone, Copy, Debug, PartialEq, Eq)]
pub struct Check {
    pub at: u64,
    pub want: u64,
    pub got: u64,
}

/// Damage of the file by the first check that fails.
pub fn judge(file: File, checks: &[Check]) -> Result<(), StoreFault>
    ensures row { result ≡ judged file checks.now }
    ensures differs { IfErr result TellsApart }
{
    for check in checks {
        if check.want != check.got {
            return Err(StoreFault::Damaged(Damage {
                file,
                at: check.at,
                want: check.want as u128,
                got: check.got as u128,
            }));
        }
    }
    Ok(())
}
