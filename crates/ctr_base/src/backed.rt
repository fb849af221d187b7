// The log and the homes as the backing of a pool: a page is saved behind its records.
ghost use Rattle.std.specs.Prelude.{◌≡◌, ◌<◌};

use crate::base::Base;
use crate::origin::Origin;
use ctr_disk::{Disk, StoreFault};
use ctr_redo::{Backing, Lsn, PageNo};

impl<D: Disk, O: Origin> Backing for Base<D, O> {
    ghost use Rattle.ctr_disk.specs.declared.fault.StoreFault.TheVariants.{Fault};
    ghost use Rattle.std.specs.Prelude.{◌≡◌};
    ghost use Rattle.ctr_base.specs.Base.{home_of, MayPut, IsSoundImage, StandsQuiet, LeavesIf, MovesIf, KeepsBase, FindsNumber};
    ghost use Rattle.ctr_base.specs.BaseLaws.{rests_leaves, stands_still, leaves_joined, moves_joined};
    ghost use Rattle.ctr_base.specs.KeptLaws.{base_kept, base_kept_on};

    ghost tells = { D.tells };

    ghost held = { home_of D.Disk };

    ghost may_be_saved = { MayPut O.first D.Disk };

    ghost rests = { StandsQuiet O.first D.Disk };

    ghost leaves_between = { LeavesIf O.first D.Disk };

    ghost may_change = { MovesIf O.first D.Disk };

    ghost keeps = { KeepsBase D.Disk };

    ghost fails = { λ _ _ e. IsSoundImage O.first → e ≡ Fault };

    ghost finds = { FindsNumber O.first D.Disk };

    ghost faults_of = { λ b. D.faults_of b.disk };

    fn load(&mut self, page: PageNo, into: &mut [u8]) -> Result<Lsn, StoreFault> {
        self.get_home(page, into)
    }

    fn save(&mut self, page: PageNo, lsn: Lsn, body: &[u8]) -> Result<(), StoreFault> {
        self.make_durable(lsn)?;
        self.put_home(page, lsn, body)?;
        Ok(())
    }

    fn faults(&self) -> u64 {
        self.disk.faults()
    }

    ghost stays = { λ b told rests. rests_leaves D.Disk.own O.first D.only_now b rests };

    ghost kept = { base_kept D.Disk.own };

    ghost kept_on = { base_kept_on D.Disk.own };

    ghost stands = { λ b sound. stands_still D.Disk.own b };

    ghost joined = { λ a b c m ab bc sound. leaves_joined D.Disk.own a b c (m sound) (ab sound) (bc sound) };

    ghost moved = { λ a b c m n sound. moves_joined D.Disk.own a b c (m sound) (n sound) };

    ghost failed = { λ a b c e moved is. is };
}
