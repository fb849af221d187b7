// Syncs of a file that fails at one of them, which no folder gives.
use ctr_disk::Failed;
use ctr_file::{Marked, Syncs};
use std::test::Fail;

// A file whose sync of this number fails, and how many it was asked for.
#[derive(Drop)]
struct Stubborn {
    asked: u64,
    fails: u64,
}

impl Syncs for Stubborn {
    fn sync(&mut self) -> Result<(), Failed> {
        self.asked = self.asked.saturating_add(1);
        if self.asked == self.fails {
            Err(Failed)
        } else {
            Ok(())
        }
    }
}

// A sync is made the first time and after each time the file was marked, and no other time; a later one that
// can't be made is told, and the file stays marked.
#[test]
fn a_later_sync_is_made_too(rt: HostRuntime) -> Result<(), Fail> {
    let mut file = Marked::new(Stubborn { asked: 0, fails: 3 });
    let rows = [
        (false, true, 1),
        (false, true, 1),
        (true, true, 2),
        (true, false, 3),
        (false, true, 4),
        (false, true, 4),
    ];
    for (writes, fine, asked) in rows {
        if writes {
            file.mark();
        }
        assert_eq!(rt; file.sync().is_ok(), fine);
        assert_eq!(rt; file.file().asked, asked);
    }
    Ok(())
}
