// Run: some of the turns that remain. Between u32 and usize are casts and no TryFrom, whose error cannot come: no turn number and no count of turns is above 120
// once the job has passed its test, and a usize has all numbers of 32 bits.
ghost use Rattle.std.specs.Prelude.{◌≡◌};
ghost use Rattle.refusals.specs.Outcomes.{outcome_number};
ghost use Rattle.engine.specs.Run.{RunOutcome, run_reply, run_refusal_of, run_of};

use crate::job::Job;
use crate::lent::check_workspace;
use refusals::Refusal;
use rotation::Saturations;

// The next job, and of this call the turns, skipped ones included, and the clamps.
#[derive(Clone, Copy)]
pub struct Ran {
    pub job: Job,
    pub count: u32,
    pub clamps: Saturations,
}

// What C is answered: the refusal's number, the next job, and of this call the turns, skipped ones included, the clamps in R and the clamps in Q.
#[repr(C)]
#[derive(Clone, Copy)]
pub struct RunReply {
    pub number: u8,
    pub job: Job,
    pub count: u32,
    pub clamps_r: u32,
    pub clamps_q: u32,
}

impl RunReply {
    // A function and no From, since the reply of a refusal hands back the job that the call was handed.
    pub fn of(job: Job, outcome: Result<Ran, Refusal>) -> RunReply
        ensures { result ≡ run_reply job outcome }
    {
        match outcome {
            Ok(ran) => RunReply {
                number: 0,
                job: ran.job,
                count: ran.count,
                clamps_r: ran.clamps.r,
                clamps_q: ran.clamps.q,
            },
            Err(refusal) => RunReply {
                number: refusal.number(),
                job,
                count: 0,
                clamps_r: 0,
                clamps_q: 0,
            },
        }
    }
}

// The tests, in this order: the workspace has room, and the job can be.
#[tactic(auto, unfolding(crate::specs::Run::run_refusal_of), using(refusals::proofs::Outcomes::refused_first, refusals::proofs::Outcomes::passed_first))]
pub fn check_run(job: Job, workspace: &[i32]) -> Result<(), Refusal>
    ensures { outcome_number result ≡ run_refusal_of job workspace.now }
{
    check_workspace(workspace)?;
    job.check()
}

// Takes at most `budget` of the turns that remain of the job, or refuses and changes nothing.
pub fn run(job: Job, budget: u16, workspace: &mut [i32]) -> Result<Ran, Refusal>
    ensures { record { reply = run_reply job result; workspace = workspace.new } ≡ run_of job budget workspace.old }
{
    check_run(job, workspace)?;
    let first = job.turn as usize;
    let left = schedule::COUNT - first;
    let count = usize::from(budget).min(left);
    let tally = workspace::rotations::take_turns(first, count, workspace);
    let after = first + count;
    Ok(Ran {
        job: Job {
            turn: after as u32,
            made: job.made + tally.made,
        },
        count: count as u32,
        clamps: tally.saturations,
    })
}
