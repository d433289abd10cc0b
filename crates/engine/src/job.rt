// The job: what a host keeps of a matrix beside its workspace, and hands to the next call.
ghost use Rattle.std.specs.Prelude.{◌≡◌, ltb};
ghost use Rattle.refusals.specs.Outcomes.{outcome_number};
ghost use Rattle.schedule.specs.Schedule.{rotation_count};
ghost use Rattle.engine.specs.Job.{job_test};

use refusals::Refusal;

// The turn number, and the turns truly made since Load.
#[repr(C)]
#[derive(Clone, Copy)]
pub struct Job {
    pub turn: u32,
    pub made: u32,
}

// Between u32 and usize are casts and no TryFrom, whose error cannot come: 120 has room in 32 bits, and a usize has all numbers of 32 bits.
impl Job {
    // The job of a workspace that Load filled.
    pub const LOADED: Job = Job { turn: 0, made: 0 };

    // A job with no turn left and none made, as of a workspace that Read filled.
    pub const FINISHED: Job = Job {
        turn: schedule::COUNT as u32,
        made: 0,
    };

    // No job, for the reply of a refusal that hands none back. The same values as LOADED, under a name of its own, since nothing is loaded.
    pub const NONE: Job = Job { turn: 0, made: 0 };

    // The test that a job can be: its turn number is 120 at most, and no more turns are made than that.
    #[tactic(auto, unfolding(crate::specs::Job::job_test))]
    pub fn check(self) -> Result<(), Refusal>
        ensures { outcome_number result ≡ job_test self }
    {
        if schedule::COUNT < self.turn as usize || self.turn < self.made {
            return Err(Refusal::NoSuchJob);
        }
        Ok(())
    }

    // Whether turns are left.
    pub fn is_unfinished(self) -> bool
        ensures { result ≡ ltb self.turn rotation_count }
    {
        (self.turn as usize) < schedule::COUNT
    }
}
