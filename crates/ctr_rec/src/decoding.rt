// Reading a record.
ghost use Rattle.std.specs.Prelude.{◌≡◌, ◌≢◌, ◌<◌, ◌+◌, ◌⊎◌, length, Ok, Err, IfOk, IfErr};
ghost use Rattle.ctr_bytes.specs.Fields.{field};
ghost use Rattle.ctr_rec.specs.declared.record.Record.{Record};
ghost use Rattle.ctr_rec.specs.declared.table.Tag.{Tag};
ghost use Rattle.ctr_rec.specs.Table.{layout};
ghost use Rattle.ctr_rec.specs.Spelling.{record_bytes};
ghost use Rattle.ctr_rec.specs.Damage.{wrong, checks, Answers};
ghost use Rattle.ctr_rec.specs.Checkpoint.{checkpoint_checks};
ghost use Rattle.ctr_rec.specs.Records.{IsRecord, AreNoRecord, ListsAreMembers};
ghost use Rattle.ctr_rec.specs.Parts.{form_of};

use crate::Record;
use crate::checkpoint::{check_checkpoint, checkpoint_in};
use crate::fields::decode_fields;
use crate::record::record_of;
use ctr_bytes::get_u8;

/// The bytes are no record: at a place in them one number is wanted, and another is there.
#[derive(Clone, Copy, Debug, PartialEq, Eq)]
pub struct BadRecord {
    pub at: u64,
    pub want: u128,
    pub got: u128,
}

// The first byte; of no bytes it is 0.
fn first_byte(bytes: &[u8]) -> u8
    ensures { result ≡ field 1 0 bytes.now }
{
    if bytes.is_empty() {
        return 0;
    }
    get_u8(bytes, 0)
}

/// The record that these bytes are. It takes no memory.
pub fn decode<'a>(bytes: &'a [u8]) -> Result<Record<'a>, BadRecord>
    // The bytes are those of the record that is read.
    ensures found { IfOk result (λ r. IsRecord r × (record_bytes r ≡ bytes.now)) }
    // A Checkpoint's lists are those of members, each in its bounds and each transaction once.
    ensures members { IfOk result (λ r. ListsAreMembers (form_of r)) }
    // The record that they are is read.
    ensures only { (r : Record) → IsRecord r → record_bytes r ≡ bytes.now → result ≡ Ok r }
    // Bytes that are no record are refused, and only those.
    ensures refused { IfErr result (AreNoRecord bytes.now) }
    // No record begins with such a byte; of no bytes it is 0.
    ensures tag { (field 1 0 bytes.now ≡ 0) ⊎ (18 < field 1 0 bytes.now) → result ≡ Err (wrong 0 18 (field 1 0 bytes.now)) }
    // Of a Checkpoint the first check that fails.
    ensures checkpoint { field 1 0 bytes.now ≡ 1 → Answers result (checkpoint_checks bytes.now) }
    // Of others the first check that fails, by the row of the record that begins so.
    ensures exact { (t : Tag) → (layout t).number ≡ field 1 0 bytes.now → Answers result (checks (layout t) bytes.now) }
{
    let first = first_byte(bytes);
    if first == 1 {
        check_checkpoint(bytes)?;
        return Ok(checkpoint_in(bytes));
    }
    Ok(record_of(decode_fields(first, bytes)?))
}
