// The range of sums.
ghost use Rattle.std.specs.Prelude.{◌≡◌, ◌↔◌, true, IsTrue, EachIndex};
ghost use Rattle.refusals.specs.Outcomes.{outcome_number};
ghost use Rattle.covariance.specs.Sums.{sum_at, in_range, words_in_range_of, sums_test};

use crate::Sums;
use refusals::Refusal;

// Whether a sum lies within 2^31 times the count, either way.
fn in_range(count: u32, sum: i64) -> bool
    ensures { result ≡ in_range count sum }
{
    let limit = 2147483648 * u64::from(count);
    sum.unsigned_abs() <= limit
}

impl Sums {
    // Whether all 128 sums do.
    fn in_range(&self) -> bool
        ensures { IsTrue result ↔ EachIndex self.now.words (λ n. in_range self.now.count (sum_at self.now.words n) ≡ true) }
    {
        self.words.iter().all(|sum| in_range(self.count, *sum))
    }

    // The count is one of a matrix, and each sum in its range.
    #[tactic(auto, unfolding(crate::specs::Sums::sums_test))]
    pub fn check_range(&self) -> Result<(), Refusal>
        ensures { outcome_number result ≡ sums_test self.now.count self.now.words }
    {
        if crate::SNAPSHOTS < self.count {
            return Err(Refusal::SumsOutOfRange);
        }
        if !self.in_range() {
            return Err(Refusal::SumsOutOfRange);
        }
        Ok(())
    }
}
