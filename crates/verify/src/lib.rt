// Whether a result record factors a matrix record within the limits that the engine's own results keep, whoever wrote it. The call makes its own tests of
// its input, in the order of their definitions, and refuses by the first that fails.

#![tactic(auto)]

mod pairs;
mod sums;

ghost use Rattle.std.specs.Prelude.{◌≡◌, IfOk};
ghost use Rattle.refusals.specs.Outcomes.{outcome_number};
ghost use Rattle.verify.specs.Verify.{verify_refusal_of, verdict_of, verdict};

use pairs::all_near;
use refusals::Refusal;
use workspace::filling::fill;

// What a C host is answered: the refusal's number, and 1 for yes. A refusal is neither yes nor no, and has 0.
#[repr(C)]
#[derive(Clone, Copy)]
pub struct Verdict {
    pub number: u8,
    pub yes: u8,
}

impl From<Result<bool, Refusal>> for Verdict {
    ghost from_gives = { λ outcome reply. reply ≡ verdict outcome };

    #[tactic(auto, unfolding(crate::specs::Verify::verdict))]
    fn from(outcome: Result<bool, Refusal>) -> Self {
        match outcome {
            Ok(true) => Verdict { number: 0, yes: 1 },
            Ok(false) => Verdict { number: 0, yes: 0 },
            Err(refusal) => Verdict {
                number: refusal.number(),
                yes: 0,
            },
        }
    }
}

// A matrix record and a result record.
type Records<'a> = (
    &'a [u8; matrix_record::BYTES],
    &'a [u8; result_record::BYTES],
);

// The records that the bytes are: the matrix's tag is tested, its length, and that an antenna is heard; then the result's tag, its length, and that R is
// upper triangular, with no negative word among the first 15 of its diagonal.
#[tactic(auto, unfolding(crate::specs::Verify::verify_refusal_of), using(refusals::proofs::Outcomes::refused_first, refusals::proofs::Outcomes::passed_first))]
fn check_verify<'a>(matrix: &'a [u8], res: &'a [u8]) -> Result<Records<'a>, Refusal>
    ensures number { outcome_number result ≡ verify_refusal_of matrix.now res.now }
    ensures same { IfOk result (λ checked. (checked.0.now ≡ matrix.now) × (checked.1.now ≡ res.now)) }
{
    let input = matrix_record::check_record(matrix)?;
    let output = result_record::check_record(res)?;
    Ok((input, output))
}

// Whether the result's Q and R factor the matrix within the limits, or a refusal.
pub fn verify(matrix: &[u8], res: &[u8]) -> Result<bool, Refusal>
    ensures { verdict result ≡ verdict_of matrix.now res.now }
{
    let (input, output) = check_verify(matrix, res)?;
    let mut loaded = [0; workspace::WORDS];
    fill(input, &mut loaded);
    let mut words = [0; workspace::WORDS];
    fill(output, &mut words);
    Ok(all_near(&words, &loaded))
}
