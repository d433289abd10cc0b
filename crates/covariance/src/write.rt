// Writing the matrix record of the sums.
ghost use Rattle.std.specs.Prelude.{◌≡◌, true, ◌<◌, ◌≤◌, ◌*◌, ◌^◌, nat_abs};
ghost use Rattle.refusals.specs.Outcomes.{outcome_number};
ghost use Rattle.matrix_record.specs.MatrixRecord.{matrix_record_of};
ghost use Rattle.covariance.specs.Sums.{words_in_range_of};
ghost use Rattle.covariance.specs.WriteMatrix.{WriteOutcome, normalized, element_part, write_of};

use crate::Sums;
use refusals::Refusal;
use words::int16_bytes;

// A part of an element: the sum divided by 65,536 times the count, toward zero, and clamped at 32,767.
#[tactic(auto, unfolding(crate::specs::WriteMatrix::normalized), using(crate::proofs::Normalized::quotient_near))]
fn normalize(count: u32, sum: i64) -> i16
    requires { (0 < count) × (nat_abs sum ≤ 2 ^ 31 * count) }
    ensures { result ≡ normalized count sum }
{
    let quotient = sum / (65536 * i64::from(count));
    // No quotient is below 16 bits, so that a cast is plainer than a `try_from` that fails on one side alone.
    quotient.min(32767) as i16
}

impl Sums {
    // Writes the 257 bytes of the record, part by part.
    fn write_record(&self, buffer: &mut [u8; matrix_record::BYTES])
        requires { (0 < self.now.count) × (words_in_range_of self.now.count self.now.words ≡ true) }
        ensures { buffer.new ≡ matrix_record_of (element_part self.now.count self.now.words) }
    {
        buffer[0] = matrix_record::TAG;
        for n in 0..128 {
            let p = 1 + 2 * n;
            let part = normalize(self.count, self.words[n]);
            buffer[p..p + 2].copy_from_slice(&int16_bytes(part));
        }
    }

    // Writes the matrix record of the sums, or refuses and changes nothing.
    pub fn write_matrix(&self, buffer: &mut [u8]) -> Result<(), Refusal>
        ensures { record { number = outcome_number result; buffer = buffer.new } ≡ write_of self.now buffer.old }
    {
        self.check_range()?;
        if self.count == 0 {
            return Err(Refusal::NoneAdded);
        }
        let Some(bytes) = buffer.first_chunk_mut() else {
            return Err(Refusal::ShortBuffer);
        };
        self.write_record(bytes);
        Ok(())
    }
}
