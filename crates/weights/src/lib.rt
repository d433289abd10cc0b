// Weights for the modem: R times w = Q transposed times the target, solved in 64-bit floats from row 15 up. The call makes its own tests of
// its input, in the order of their definitions, and refuses by the first that fails.

#![tactic(auto)]

mod system;

ghost use Rattle.std.specs.Prelude.{◌≡◌, IfOk};
ghost use Rattle.refusals.specs.Outcomes.{outcome_number};
ghost use Rattle.result_record.specs.ResultRecord.{record_r};
ghost use Rattle.weights.specs.Solution.{component_of};
ghost use Rattle.weights.specs.Weights.{weights_from, diagonal_nonzero_of, weights_refusal_of, weights_of, weights_reply};

use covariance::Sample;
use refusals::Refusal;
use result_record::r;
use system::System;

// A weight, a complex number.
#[repr(C)]
#[derive(Clone, Copy)]
pub struct Weight {
    pub re: f64,
    pub im: f64,
}

// What stands for a weight in a refusal.
const NO_WEIGHT: Weight = Weight { re: 0.0, im: 0.0 };

// What a C host is answered: the refusal's number and the weights, which are +0.0 in a refusal.
#[repr(C)]
#[derive(Clone, Copy)]
pub struct WeightsReply {
    pub number: u8,
    pub weights: [Weight; 8],
}

impl From<Result<[Weight; 8], Refusal>> for WeightsReply {
    ghost from_gives = { λ outcome reply. reply ≡ weights_reply outcome };

    fn from(outcome: Result<[Weight; 8], Refusal>) -> Self {
        match outcome {
            Ok(weights) => WeightsReply { number: 0, weights },
            Err(refusal) => WeightsReply {
                number: refusal.number(),
                weights: [NO_WEIGHT; 8],
            },
        }
    }
}

// All eight weights: weight k is components k and 8 + k.
fn all_weights(x: &[f64; 16]) -> [Weight; 8]
    ensures { result ≡ weights_from (component_of x.now) }
{
    let mut weights = [NO_WEIGHT; 8];
    for k in 0..8 {
        weights[k] = Weight {
            re: x[k],
            im: x[8 + k],
        };
    }
    weights
}

// Whether no word on R's diagonal is 0.
fn diagonal_nonzero(bytes: &[u8; result_record::BYTES]) -> bool
    ensures { result ≡ diagonal_nonzero_of (record_r bytes.now) }
{
    for i in 0..16 {
        if r(bytes, i, i) == 0 {
            return false;
        }
    }
    true
}

// The result record that the bytes are, if it has weights.
#[tactic(auto, unfolding(crate::specs::Weights::weights_refusal_of), using(refusals::proofs::Outcomes::refused_first, refusals::proofs::Outcomes::passed_first))]
fn check_weights(bytes: &[u8]) -> Result<&[u8; result_record::BYTES], Refusal>
    ensures number { outcome_number result ≡ weights_refusal_of bytes.now }
    ensures same { IfOk result (λ checked. checked.now ≡ bytes.now) }
{
    let checked = result_record::check_record(bytes)?;
    if !diagonal_nonzero(checked) {
        return Err(Refusal::ZeroDiagonal);
    }
    Ok(checked)
}

// The weights of a result record for eight targets, or a refusal.
pub fn weights(bytes: &[u8], targets: [Sample; 8]) -> Result<[Weight; 8], Refusal>
    ensures { weights_reply result ≡ weights_of bytes.now targets }
{
    let checked = check_weights(bytes)?;
    let x = System::new(checked, targets).solution();
    Ok(all_weights(&x))
}
