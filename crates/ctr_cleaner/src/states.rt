// The state of an entry, by its title as it was read.
ghost use Rattle.std.specs.Prelude.{◌≡◌, ◌==◌};
ghost use Rattle.ctr_area.specs.Areas.{Title};
ghost use Rattle.ctr_area.specs.Images.{is_live as is_live_title};
ghost use Rattle.ctr_locking.specs.titles_Titles.{IsTitle};

use ctr_locking::TitleRead;
use ctr_page::EntryState;

/// Whether an entry is live.
pub(crate) fn is_live(title: &TitleRead) -> bool
    ensures { (there : Title) → IsTitle there title.now → is_live_title there ≡ result }
{
    title.state == EntryState::LIVE
}

/// Whether it is dead.
pub(crate) fn is_dead(title: &TitleRead) -> bool
    ensures { (there : Title) → IsTitle there title.now → (there.state == 2) ≡ result }
{
    title.state == EntryState::DEAD
}
