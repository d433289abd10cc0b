// The shares of the sectors, set all eight in one call.
ghost use Rattle.std.specs.Prelude.{◌≡◌};
ghost use Rattle.refusals.specs.Outcomes.{outcome_number};
ghost use Rattle.desk.specs.Replies.{desk_reply};
ghost use Rattle.desk.specs.Shares.{total_of, shares_test, set_shares_of};

use crate::roles::Role;
use crate::{Desk, ROUND_TURNS};
use refusals::Refusal;

// The share of sector k at place k, as the C interface has them.
#[repr(C)]
#[derive(Clone, Copy)]
pub struct Shares {
    pub shares: [u16; 8],
}

fn total(shares: &[u16; 8]) -> u32
    ensures { result ≡ total_of shares.now }
{
    shares.iter().map(|&share| u32::from(share)).sum()
}

impl Shares {
    // The test that the shares make no more turns in all than a round has.
    fn check(&self) -> Result<(), Refusal>
        ensures { outcome_number result ≡ shares_test self.now.shares }
    {
        if total(&self.shares) > u32::from(ROUND_TURNS) {
            return Err(Refusal::SharesExceedRound);
        }
        Ok(())
    }
}

impl Desk {
    // Sets all eight shares, which count from the next round on; or refuses and changes nothing.
    #[tactic(auto, unfolding(crate::specs::Shares::set_shares_of, crate::specs::Shares::set_shares_refusal_of, crate::specs::Shares::set_shares_by), using(crate::proofs::Refused::set_shares_refused, refusals::proofs::Outcomes::refused_first, refusals::proofs::Outcomes::passed_first))]
    pub fn set_shares(&mut self, role: u32, shares: Shares) -> Result<(), Refusal>
        ensures { desk_reply self.new result ≡ set_shares_of role self.old shares.shares }
    {
        Role::admit(role, Role::Operator)?;
        shares.check()?;
        self.shares = shares.shares;
        Ok(())
    }
}
