// The begin of a round.
ghost use Rattle.std.specs.Prelude.{◌≡◌};
ghost use Rattle.desk.specs.Replies.{desk_reply};
ghost use Rattle.desk.specs.Rounds.{begin_of};

use crate::Desk;
use crate::roles::Role;
use refusals::Refusal;

impl Desk {
    // Begins a round: each sector's count is refilled from its share; or refuses and changes nothing.
    #[tactic(auto, unfolding(crate::specs::Rounds::begin_of, crate::specs::Rounds::begin_by), using(crate::proofs::Refused::begin_refused))]
    pub fn begin(&mut self, role: u32) -> Result<(), Refusal>
        ensures { desk_reply self.new result ≡ begin_of role self.old }
    {
        Role::admit(role, Role::Operator)?;
        self.left = self.shares;
        Ok(())
    }
}
