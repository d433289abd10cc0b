// Adding a snapshot.
ghost use Rattle.std.specs.Prelude.{◌≡◌};
ghost use Rattle.refusals.specs.Outcomes.{outcome_number};
ghost use Rattle.covariance.specs.AddSnapshot.{add_refusal_of, add_of};

use crate::{Sample, Sums};
use refusals::Refusal;

// What a C host is answered: the refusal's number and the sums, with the snapshot added, or, refused, as they were.
#[repr(C)]
#[derive(Clone, Copy)]
pub struct AddReply {
    pub number: u8,
    pub sums: Sums,
}

impl Sums {
    // Whether a snapshot can be added.
    #[tactic(auto, unfolding(crate::specs::AddSnapshot::add_refusal_of))]
    fn check_add(&self) -> Result<(), Refusal>
        ensures { outcome_number result ≡ add_refusal_of self.now }
    {
        if crate::SNAPSHOTS <= self.count {
            return Err(Refusal::SumsOutOfRange);
        }
        self.check_range()
    }

    // Adds the products of each two samples of a snapshot to the sums of their element, and counts it.
    pub fn add(&mut self, snapshot: [Sample; 8]) -> Result<(), Refusal>
        ensures { record { number = outcome_number result; sums = self.new } ≡ add_of snapshot self.old }
    {
        self.check_add()?;
        for e in 0..64 {
            let (re, im) = snapshot[e / 8].times_conjugate(snapshot[e % 8]);
            self.words[2 * e] += re;
            self.words[2 * e + 1] += im;
        }
        self.count += 1;
        Ok(())
    }
}
