// The order of dates.
ghost use Rattle.std.specs.Prelude.{◌≡◌};
ghost use Rattle.date.specs.Ordering.{order_answer, compare_answer};

use crate::Date;
use std::cmp::Ordering;

// By year, then month, then day: whether `a` is the earlier, the same date or the later.
#[tactic(auto, using(crate::proofs::OrderingLaws::order_is))]
pub fn compare(a: Date, b: Date) -> Ordering
    ensures { order_answer result ≡ compare_answer a b }
{
    a.cmp(&b)
}
