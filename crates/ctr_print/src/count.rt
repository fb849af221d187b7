// Counts over a tape.
ghost use Rattle.std.specs.Prelude.{◌≡◌};
ghost use Rattle.ctr_model.specs.Tape.{is_answer, is_refused};
ghost use Rattle.ctr_model.specs.Texts.{answers, refusals};

use ctr_io::{Entry, Reply, Tape};

fn is_answered(entry: &Entry) -> bool
    ensures { result ≡ is_answer entry.now.reply }
{
    matches!(&entry.reply, Reply::Answered { .. })
}

fn was_refused(entry: &Entry) -> bool
    ensures { result ≡ is_refused entry.now.reply }
{
    matches!(&entry.reply, Reply::Refused { .. })
}

/// How many commits were answered.
pub fn count_answers(tape: &Tape) -> u64
    ensures { result ≡ answers tape.now.entries }
{
    let entries = tape.entries.as_slice();
    entries.iter().filter(|e| is_answered(e)).count() as u64
}

/// How many acts were refused.
pub fn count_refusals(tape: &Tape) -> u64
    ensures { result ≡ refusals tape.now.entries }
{
    let entries = tape.entries.as_slice();
    entries.iter().filter(|e| was_refused(e)).count() as u64
}
