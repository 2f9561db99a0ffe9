// What the pass over a row found, and what is asked of it.
ghost use Rattle.std.specs.Prelude.{◌≡◌};
ghost use Rattle.row.specs.Counting.{below_limit_by, count_by, told_count, leading_counts, recount_by, told_totals};
ghost use Rattle.kinds.specs.Kinds.{kind_count};

use crate::{APPLICATIONS, Limits, Tally};
use kinds::TaId;
use refusals::Refusal;
use sets::Numbered;
use totals::Totals;

// The counts of the ten kinds.
#[tactic(auto, unfolding(choice::specs::Pick::pick, crate::specs::Counting::leading_counts))]
fn leading(counts: [u8; APPLICATIONS]) -> [u8; totals::KINDS]
    ensures { result ≡ leading_counts counts kind_count }
{
    *counts.first_chunk().unwrap()
}

impl Tally {
    // The applications whose count is below its limit.
    #[tactic(auto, unfolding(choice::specs::Pick::pick, sets::specs::Set::chosen, crate::specs::Counting::below_limit_by))]
    pub(crate) fn below_limit_by(self, limits: Limits) -> u16
        ensures { result ≡ below_limit_by self limits }
    {
        let mut out = 0;
        for (k, &count) in self.counts.iter().enumerate() {
            // By place: `k` names the application too, and a zip inside the `enumerate` is no plainer.
            let limit = crate::limiting::capped(limits.each[k]);
            let is_below = count < limit;
            out = TaId(k as u32 + 1).switched(out, is_below);
        }
        out
    }

    // How many sessions of the row use an application.
    #[tactic(auto, using(sets::proofs::Switches::numbered_is), unfolding(choice::specs::Pick::pick, crate::specs::Counting::count_by))]
    pub fn count_by(self, ta_id: u32) -> Result<u8, Refusal>
        ensures { told_count result ≡ count_by self ta_id }
    {
        if !self.sound {
            return Err(Refusal::NotSound);
        }
        if !TaId(ta_id).is_known() {
            return Err(Refusal::OutOfRange);
        }
        Ok(self.counts[(ta_id - 1) as usize])
    }

    // How many sessions of the row permit each kind, where kinds were counted.
    #[tactic(auto, unfolding(choice::specs::Pick::pick, crate::specs::Counting::recount_by))]
    pub fn recount_by(self) -> Result<Totals, Refusal>
        ensures { told_totals result ≡ recount_by self }
    {
        if !self.sound {
            return Err(Refusal::NotSound);
        }
        Ok(Totals {
            each: leading(self.counts),
        })
    }
}
