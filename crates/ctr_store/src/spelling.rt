// Records as they go into the log.
ghost use Rattle.std.specs.Prelude.{◌≡◌, ◌≤◌, ◌<◌, ◌+◌, ◌-◌, ◌^◌, ◌++◌, [], ◌∷◌, length, List, ℕ};
ghost use Rattle.ctr_rec.specs.Records.{IsRecord};
ghost use Rattle.ctr_rec.specs.Spelling.{record_bytes};
ghost use Rattle.ctr_base.specs.redo_Overlaid.{overlay_of};
ghost use Rattle.ctr_base.specs.pool_Pages.{overlaid_by};
ghost use Rattle.ctr_directory.specs.Keys.{SaysSameOutside};
ghost use Rattle.ctr_store.specs.Changes.{IsChange};

use ctr_base::{LogFile, Lsn};
use ctr_directory::Span;
use ctr_rec::{Form, Overlay, Record, encode, to_form};

/// How many bytes a record has at most that is no Checkpoint: its number, two fields, and an overlay of a page.
pub const MOST_BYTES: usize = 4122;

/// The overlay of a record, where it has one.
pub fn overlay_of<'a>(rec: &'a Record) -> Option<Overlay<'a>>
    ensures { result ≡ overlay_of rec.now }
{
    match to_form(rec) {
        Form::Lists { .. } => None,
        Form::Fields(parts) => parts.overlay,
    }
}

/// The bytes of its page that an overlay changes.
pub fn span_of(overlay: &Overlay) -> Span
    requires { overlay.now.offset + length overlay.now.bytes ≤ 4096 }
    ensures { (body : List ℕ) → length body ≡ 4096 → SaysSameOutside result body (overlaid_by overlay.now body) }
{
    if overlay.clear {
        return Span { from: 0, to: 4096 };
    }
    let from = overlay.offset as usize;
    let to = from + overlay.bytes.as_slice().len();
    Span { from, to }
}

/// Adds a record that is no Checkpoint to the log's buffer. It takes no memory.
pub fn append_record(log: &mut LogFile, rec: &Record) -> Lsn
    requires is_record { IsRecord rec.now }
    requires change { IsChange rec.now }
    requires room { 8 + length (record_bytes rec.now) ≤ log.old.room }
    requires next { log.old.first + length log.old.buffered < 2 ^ 63 - 1 }
    ensures number { result ≡ log.old.first + length log.old.buffered }
    ensures added { log.new ≡ record log.old { buffered = log.old.buffered ++ record_bytes rec.now ∷ []; room = log.new.room } }
    ensures room_left { log.old.room ≤ log.new.room + (8 + length (record_bytes rec.now)) }
{
    let mut bytes = [0; MOST_BYTES];
    let len = encode(rec, &mut bytes);
    log.append(&bytes[..len])
}
