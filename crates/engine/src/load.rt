// Load: a matrix record becomes the words of a workspace.
ghost use Rattle.std.specs.Prelude.{◌≡◌, IfOk};
ghost use Rattle.refusals.specs.Outcomes.{outcome_number};
ghost use Rattle.engine.specs.Load.{LoadOutcome, load_reply, load_refusal_of, load_of};

use crate::job::Job;
use crate::lent::check_workspace;
use refusals::Refusal;

// The heard byte and the job.
#[derive(Clone, Copy)]
pub struct Loaded {
    pub heard: u8,
    pub job: Job,
}

// What C is answered: the refusal's number, the heard byte and the job.
#[repr(C)]
#[derive(Clone, Copy)]
pub struct LoadReply {
    pub number: u8,
    pub heard: u8,
    pub job: Job,
}

impl From<Result<Loaded, Refusal>> for LoadReply {
    ghost from_gives = { λ outcome reply. reply ≡ load_reply outcome };

    fn from(outcome: Result<Loaded, Refusal>) -> LoadReply {
        match outcome {
            Ok(loaded) => LoadReply {
                number: 0,
                heard: loaded.heard,
                job: loaded.job,
            },
            Err(refusal) => LoadReply {
                number: refusal.number(),
                heard: 0,
                job: Job::NONE,
            },
        }
    }
}

// The record that the bytes are, tested in this order: its tag, its length, the workspace's room, and that an antenna is heard.
#[tactic(auto, unfolding(crate::specs::Load::load_refusal_of), using(refusals::proofs::Outcomes::refused_first, refusals::proofs::Outcomes::passed_first))]
pub fn check_load<'a>(
    bytes: &'a [u8],
    workspace: &[i32],
) -> Result<&'a [u8; matrix_record::BYTES], Refusal>
    ensures number { outcome_number result ≡ load_refusal_of bytes.now workspace.now }
    ensures same { IfOk result (λ checked. checked.now ≡ bytes.now) }
{
    let checked = matrix_record::check_header(bytes)?;
    check_workspace(workspace)?;
    if matrix_record::heard_byte(checked) == 0 {
        return Err(Refusal::NoneHeard);
    }
    Ok(checked)
}

// Loads a matrix record, or refuses and changes nothing.
pub fn load(bytes: &[u8], workspace: &mut [i32]) -> Result<Loaded, Refusal>
    ensures { record { reply = load_reply result; workspace = workspace.new } ≡ load_of bytes.now workspace.old }
{
    let checked = check_load(bytes, workspace)?;
    workspace::filling::fill(checked, workspace);
    let heard = matrix_record::heard_byte(checked);
    Ok(Loaded {
        heard,
        job: Job::LOADED,
    })
}
