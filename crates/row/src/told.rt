// What C is told: an answer, or why there is none.
ghost use Rattle.std.specs.Prelude.{◌≡◌};
ghost use Rattle.row.specs.Counting.{told_count, told_totals};

use crate::{Count, RowTotals};
use refusals::Refusal;
use totals::Totals;

// Each of C's answers is made by an impl of its own: a trait for the `match` would need two functions of each in place of this one.
impl From<Result<u8, Refusal>> for Count {
    ghost from_gives = { λ count told. told ≡ told_count count };

    fn from(count: Result<u8, Refusal>) -> Count {
        match count {
            Ok(count) => Count {
                refusal: refusals::NOT_REFUSED,
                count,
            },
            Err(refusal) => Count {
                refusal: refusal.into(),
                count: 0,
            },
        }
    }
}

impl From<Result<Totals, Refusal>> for RowTotals {
    ghost from_gives = { λ totals told. told ≡ told_totals totals };

    fn from(totals: Result<Totals, Refusal>) -> RowTotals {
        match totals {
            Ok(totals) => RowTotals {
                refusal: refusals::NOT_REFUSED,
                totals,
            },
            Err(refusal) => RowTotals {
                refusal: refusal.into(),
                totals: Totals {
                    each: [0; totals::KINDS],
                },
            },
        }
    }
}
