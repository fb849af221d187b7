// What a record needs.
ghost use Rattle.std.specs.Prelude.{◌≡◌};
ghost use Rattle.ctr_rec.specs.Damage.{expect};
ghost use Rattle.ctr_meta.specs.Needs.{there};

use ctr_rec::BadRecord;

/// This number is wanted.
pub fn expect(want: u64, got: u64) -> Result<(), BadRecord>
    ensures { result ≡ expect 0 want got }
{
    if want == got {
        return Ok(());
    }
    Err(BadRecord {
        at: 0,
        want: want as u128,
        got: got as u128,
    })
}

/// It is there.
pub fn there(is: bool) -> Result<(), BadRecord>
    ensures { result ≡ there is }
{
    expect(1, if is { 1 } else { 0 })
}
