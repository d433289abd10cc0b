// The system that the weights solve, in 16 real parts: R times w = Q transposed times the target. Each row gives a component of the solution.
// Rows, columns and parts are numbers with a bound: a type of 16 values would be no plainer, since callers count through them.
ghost use Rattle.std.specs.Prelude.{◌≡◌, ◌<◌, ◌≤◌, ◌-◌, ◌^◌, nat_abs};
ghost use Rattle.lists.specs.Lists.{tabulate};
ghost use Rattle.result_record.specs.ResultRecord.{record_r, record_q};
ghost use Rattle.weights.specs.Solution.{float, target_part_of, part_at, right_sum_of, right_side_of, row_left_of, row_component_of, component_of, worked_rows};

use covariance::Sample;
use result_record::{q, r};

// R and Q of a result record, and the 16 parts of the target.
#[derive(Clone, Copy)]
pub struct System<'a> {
    bytes: &'a [u8; result_record::BYTES],
    parts: [i16; 16],
}

// Part j of the target: real parts, then imaginary ones.
#[tactic(auto, unfolding(crate::specs::Solution::target_part_of), using(integers::proofs::Magnitude::read_back))]
fn target_part(targets: [Sample; 8], j: usize) -> i16
    requires { j < 16 }
    ensures { result ≡ target_part_of targets j }
{
    if j < 8 {
        targets[j].re
    } else {
        targets[j - 8].im
    }
}

impl<'a> System<'a> {
    pub fn new(bytes: &'a [u8; result_record::BYTES], targets: [Sample; 8]) -> Self
        ensures bytes { result.bytes.now ≡ bytes.now }
        ensures parts { result.parts ≡ tabulate 16 (target_part_of targets) }
    {
        let mut parts = [0; 16];
        for k in 0..16 {
            parts[k] = target_part(targets, k);
        }
        System { bytes, parts }
    }
}

impl System<'_> {
    // Row i of Q transposed times the target, exactly.
    fn right_sum(&self, i: usize) -> i64
        requires { i < 16 }
        ensures number { result ≡ right_sum_of (record_q self.now.bytes.now) (part_at self.now.parts) i }
        ensures small { nat_abs result ≤ 2 ^ 50 }
    {
        let mut sum = 0;
        for j in 0..16 {
            sum += i64::from(q(self.bytes, j, i)) * i64::from(self.parts[j]);
        }
        sum
    }

    // That sum as a float, divided by 131,072.
    fn right_side(&self, i: usize) -> f64
        requires { i < 16 }
        ensures { result ≡ right_side_of (record_q self.now.bytes.now) (part_at self.now.parts) i }
    {
        // An i64 has no `f64::from`, since not each is a float exactly.
        self.right_sum(i) as f64 / 131072.0
    }

    // R's word (i, j) as a float.
    fn r_float(&self, i: usize, j: usize) -> f64
        requires { (i < 16) × (j < 16) }
        ensures { result ≡ float (record_r self.now.bytes.now i j) }
    {
        f64::from(r(self.bytes, i, j))
    }

    // Row i's right-hand side b less its products with the components after its own, in rising column order. Each product and each difference is rounded.
    fn row_left(&self, x: &[f64; 16], i: usize, b: f64) -> f64
        requires { i < 16 }
        ensures { result ≡ row_left_of (record_r self.now.bytes.now) (component_of x.now) i b (15 - i) }
    {
        let mut s = b;
        for j in i + 1..16 {
            s -= self.r_float(i, j) * x[j];
        }
        s
    }

    // Component i, from those after it.
    #[tactic(auto, unfolding(crate::specs::Solution::row_component_of))]
    fn component(&self, x: &[f64; 16], i: usize) -> f64
        requires { i < 16 }
        ensures { result ≡ row_component_of (record_r self.now.bytes.now) (record_q self.now.bytes.now) (part_at self.now.parts) (component_of x.now) i }
    {
        let b = self.right_side(i);
        let s = self.row_left(x, i, b);
        s / self.r_float(i, i)
    }

    // All 16 components, from row 15 up.
    pub fn solution(&self) -> [f64; 16]
        ensures { result ≡ worked_rows (record_r self.now.bytes.now) (record_q self.now.bytes.now) (part_at self.now.parts) 16 }
    {
        let mut x = [0.0; 16];
        for i in (0..16).rev() {
            x[i] = self.component(&x, i);
        }
        x
    }
}
