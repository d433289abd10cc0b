// A sample times the conjugate of another.
ghost use Rattle.std.specs.Prelude.{◌≡◌, ◌≤◌, ◌^◌, nat_abs};
ghost use Rattle.covariance.specs.Sums.{product_part};

use crate::Sample;

impl Sample {
    // The real and the imaginary part of (x + y i) (u - v i).
    #[tactic(auto, unfolding(crate::specs::Sums::product_part))]
    pub fn times_conjugate(self, other: Self) -> (i64, i64)
        ensures real { result.0 ≡ product_part self other 0 }
        ensures imaginary { result.1 ≡ product_part self other 1 }
        ensures small { (nat_abs result.0 ≤ 2 ^ 31) × (nat_abs result.1 ≤ 2 ^ 31) }
    {
        let (x, y) = (i64::from(self.re), i64::from(self.im));
        let (u, v) = (i64::from(other.re), i64::from(other.im));
        (x * u + y * v, y * u - x * v)
    }
}
