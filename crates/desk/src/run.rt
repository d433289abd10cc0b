// Run for a sector: turns of its own count for its job.
ghost use Rattle.std.specs.Prelude.{◌≡◌, IfOk};
ghost use Rattle.refusals.specs.Outcomes.{outcome_number};
ghost use Rattle.desk.specs.Replies.{desk_run_reply};
ghost use Rattle.desk.specs.Run.{count_test, DeskRunOutcome, desk_run_refusal, desk_run_of};

use crate::Desk;
use crate::roles::Role;
use crate::sector::Sector;
use engine::job::Job;
use engine::run::Ran;
use refusals::Refusal;

// What C is answered: the desk after the call, the refusal's number, the sector's job, and of this call the turns, skipped ones included, the clamps in R and
// the clamps in Q.
#[repr(C)]
#[derive(Clone, Copy)]
pub struct DeskRunReply {
    pub desk: Desk,
    pub number: u8,
    pub job: Job,
    pub count: u32,
    pub clamps_r: u32,
    pub clamps_q: u32,
}

impl DeskRunReply {
    pub fn of(desk: Desk, outcome: Result<Ran, Refusal>) -> DeskRunReply
        ensures { result ≡ desk_run_reply desk outcome }
    {
        match outcome {
            Ok(ran) => DeskRunReply {
                desk,
                number: 0,
                job: ran.job,
                count: ran.count,
                clamps_r: ran.clamps.r,
                clamps_q: ran.clamps.q,
            },
            Err(refusal) => DeskRunReply {
                desk,
                number: refusal.number(),
                job: Job::NONE,
                count: 0,
                clamps_r: 0,
                clamps_q: 0,
            },
        }
    }
}

// The test that refuses where turns are asked for, for an unfinished job, and the sector has none left in the round.
#[tactic(auto, unfolding(crate::specs::Run::count_test))]
fn check_count(job: Job, left: u16, request: u16) -> Result<(), Refusal>
    ensures { outcome_number result ≡ count_test job left request }
{
    if request > 0 && job.is_unfinished() && left == 0 {
        return Err(Refusal::CountUsedUp);
    }
    Ok(())
}

impl Desk {
    // The tests of Run: the sector that passes them.
    #[tactic(auto, unfolding(crate::specs::Run::desk_run_refusal), using(refusals::proofs::Outcomes::refused_first, refusals::proofs::Outcomes::passed_first))]
    fn check_run(
        &self,
        role: u32,
        sector: u32,
        request: u16,
        area: &[i32],
    ) -> Result<Sector, Refusal>
        ensures number { outcome_number result ≡ desk_run_refusal role self.now sector request area.now }
        ensures same { IfOk result (λ checked. checked ≡ sector) }
    {
        Role::admit(role, Role::Operator)?;
        let sector = Sector::try_from(sector)?;
        let job = self.job(sector);
        engine::run::check_run(job, area)?;
        check_count(job, self.left(sector), request)?;
        Ok(sector)
    }

    // Takes the smallest of the request, what the sector has left in the round and what its job has left; or refuses and changes nothing.
    #[tactic(auto, unfolding(crate::specs::Run::desk_run_of, crate::specs::Run::desk_run_by), using(crate::proofs::Refused::run_refused))]
    pub fn run(
        &mut self,
        role: u32,
        sector: u32,
        request: u16,
        area: &mut [i32],
    ) -> Result<Ran, Refusal>
        ensures { record { reply = desk_run_reply self.new result; area = area.new } ≡ desk_run_of role self.old sector request area.old }
    {
        let sector = self.check_run(role, sector, request, area)?;
        let left = self.left(sector);
        let ran = engine::run::run(self.job(sector), request.min(left), area)?;
        // A cast and no TryFrom, whose error cannot come: that it loses no bits is proved, since no more turns are taken than `left`.
        self.pay(sector, ran.job, left - ran.count as u16);
        Ok(ran)
    }
}
