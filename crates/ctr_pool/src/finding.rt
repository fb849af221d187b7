// A page among entries that are in order of their pages.
ghost use Rattle.std.specs.Prelude.{◌≡◌, ◌≤◌, ◌<◌, ℕ, length, IfOk, IfErr, slice_index_or};
ghost use Rattle.ctr_pool.specs.Kept.{AreOrdered};

use ctr_rec::PageNo;

/// Which entry has a page, or would have it, by halving.
pub fn find(entries: &[(PageNo, usize)], page: PageNo) -> Result<usize, usize>
    requires { AreOrdered entries.now }
    ensures found { IfOk result (λ rank. (rank < length entries.now) × ((d : ℕ × ℕ) → (slice_index_or entries.now rank d).0 ≡ page)) }
    ensures within { IfErr result (λ rank. rank ≤ length entries.now) }
    ensures below { IfErr result (λ rank. (k : ℕ) (d : ℕ × ℕ) → k < rank → (slice_index_or entries.now k d).0 < page) }
    ensures above { IfErr result (λ rank. (k : ℕ) (d : ℕ × ℕ) → rank ≤ k → k < length entries.now → page < (slice_index_or entries.now k d).0) }
{
    let mut low = 0;
    let mut high = entries.len();
    while low < high {
        let middle = low + (high - low) / 2;
        let at = entries[middle].0;
        if at == page {
            return Ok(middle);
        }
        if at < page {
            low = middle + 1;
        } else {
            high = middle;
        }
    }
    Err(low)
}
