// Fetch for a sector; once the operator's succeeds, the matrix that waits is loaded in the place of the one that was fetched.
ghost use Rattle.std.specs.Prelude.{◌≡◌, ◌≤◌, length};
ghost use Rattle.workspace.specs.Workspace.{workspace_words};
ghost use Rattle.desk.specs.Desk.{waiting_at, Loaded, loaded};
ghost use Rattle.desk.specs.Fetch.{DeskFetchOutcome, desk_fetch_of};
ghost use Rattle.desk.specs.Replies.{desk_reply};

use crate::Desk;
use crate::roles::Role;
use crate::sector::Sector;
use crate::waiting::take_in;
use refusals::Refusal;

impl Desk {
    // The matrix that waits is loaded. No array of 512 words, since a longer area may be lent: `desk_fetch_of` speaks of its words behind them too.
    fn bring_in(&mut self, sector: Sector, area: &mut [i32])
        requires { workspace_words ≤ length area.old }
        ensures { record { desk = self.new; area = area.new } ≡ loaded self.old sector (waiting_at self.old sector) area.old }
    {
        let heard = take_in(self.waiting(sector), area);
        self.seat(sector, heard);
    }

    // Writes the result record of a sector's finished job, and for the operator brings in the matrix that waits; or refuses and changes nothing.
    #[tactic(auto, unfolding(crate::specs::Fetch::desk_fetch_of, crate::specs::Fetch::desk_fetch_refusal, crate::specs::Fetch::desk_fetch_by), using(crate::proofs::Refused::fetch_refused, refusals::proofs::Outcomes::refused_first, refusals::proofs::Outcomes::passed_first))]
    pub fn fetch(
        &mut self,
        role: u32,
        sector: u32,
        area: &mut [i32],
        buffer: &mut [u8],
    ) -> Result<(), Refusal>
        ensures { record { reply = desk_reply self.new result; area = area.new; buffer = buffer.new } ≡ desk_fetch_of role self.old sector area.old buffer.old }
    {
        let role = Role::admit(role, Role::Fitter)?;
        let sector = Sector::try_from(sector)?;
        engine::fetch::fetch(self.job(sector), area, buffer)?;
        if role == Role::Operator && self.waits(sector) {
            self.bring_in(sector, area);
        }
        Ok(())
    }
}
