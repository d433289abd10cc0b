// The covariance of snapshots: what the eight antennas heard at one instant, added up product by product, and the matrix record that the sums give.
// Each call makes its own tests of its input, in the order of their definitions, and refuses by the first that fails.

#![tactic(auto)]

pub mod add;
mod product;
mod range;
pub mod write;

ghost use Rattle.std.specs.Prelude.{◌≡◌};
ghost use Rattle.covariance.specs.Sums.{sums_none_of};

// The most snapshots that are added up.
const SNAPSHOTS: u32 = 4096;

// One complex sample.
#[repr(C)]
#[derive(Clone, Copy)]
pub struct Sample {
    pub re: i16,
    pub im: i16,
}

// The sums of `count` snapshots, in the order of the matrix record: word 2 * (8 * i + j) is the real part of element (i, j), the next one its imaginary
// part.
#[repr(C)]
#[derive(Clone, Copy)]
pub struct Sums {
    pub count: u32,
    pub words: [i64; 128],
}

impl Sums {
    // No snapshot added.
    pub fn none() -> Self
        ensures { result ≡ sums_none_of }
    {
        Sums {
            count: 0,
            words: [0; 128],
        }
    }
}
