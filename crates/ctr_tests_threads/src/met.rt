// What was met on tapes of sessions on threads.
use ctr_types::{Entry, Refusal, Reply};

/// What was met.
#[derive(Clone, Copy, Debug)]
pub struct Met {
    /// Tapes on which a session came between two entries of another.
    pub mixed: u64,
    /// Entries that are refused for another session's lock.
    pub locked: u64,
    /// Commits that were answered at the moment of another.
    pub together: u64,
}

impl Met {
    pub fn new() -> Met {
        Met {
            mixed: 0,
            locked: 0,
            together: 0,
        }
    }

    /// Whether sessions came between others on so many tapes at least, and others' locks and commits that were answered together were met. Whether a
    /// commit of another is met depends on the order of the turns: it isn't asked for.
    pub fn has_all(&self, mixed: u64) -> bool {
        mixed <= self.mixed && 0 < self.locked && 0 < self.together
    }

    // A reply; the commit before was answered at this moment.
    fn count_reply(&mut self, entry: &Entry, last: u64) {
        match &entry.reply {
            Reply::Refused {
                refusal: Refusal::RowLocked { .. } | Refusal::TableBusy { .. },
            } => self.locked = self.locked.saturating_add(1),
            Reply::Answered { .. } if entry.moment == last => {
                self.together = self.together.saturating_add(1);
            }
            _ => {}
        }
    }

    fn count_replies(&mut self, entries: &[Entry]) {
        let mut answered = u64::MAX;
        for entry in entries {
            self.count_reply(entry, answered);
            if let Reply::Answered { .. } = &entry.reply {
                answered = entry.moment;
            }
        }
    }

    /// Counts the tape of eight sessions.
    pub fn count(&mut self, entries: &[Entry]) {
        self.count_replies(entries);
        if comings(entries) > 8 {
            self.mixed = self.mixed.saturating_add(1);
        }
    }
}

// How often a session comes behind another; eight sessions, one behind another, come eight times.
fn comings(entries: &[Entry]) -> u64 {
    let mut session = 0;
    let mut count = 0u64;
    for entry in entries {
        if entry.session != session {
            session = entry.session;
            count = count.saturating_add(1);
        }
    }
    count
}
