// Fetch: the result record of a finished workspace.
ghost use Rattle.std.specs.Prelude.{◌≡◌};
ghost use Rattle.refusals.specs.Outcomes.{outcome_number};
ghost use Rattle.engine.specs.Fetch.{FetchOutcome, fetch_refusal_of, fetch_of};

use crate::job::Job;
use crate::lent::{check_buffer, check_workspace};
use refusals::Refusal;

// The tests, in this order: the workspace has room, the job can be, it is finished, the buffer has room, and the workspace holds a finished R.
#[tactic(auto, unfolding(crate::specs::Fetch::fetch_refusal_of), using(refusals::proofs::Outcomes::refused_first, refusals::proofs::Outcomes::passed_first))]
pub fn check_fetch(job: Job, workspace: &[i32], buffer: &[u8]) -> Result<(), Refusal>
    ensures { outcome_number result ≡ fetch_refusal_of job workspace.now buffer.now }
{
    check_workspace(workspace)?;
    job.check()?;
    if job.is_unfinished() {
        return Err(Refusal::Unfinished);
    }
    check_buffer(buffer)?;
    if !workspace::result::finished(workspace) {
        return Err(Refusal::NotTriangular);
    }
    Ok(())
}

// Writes the result record of a finished workspace, or refuses and changes nothing.
pub fn fetch(job: Job, workspace: &[i32], buffer: &mut [u8]) -> Result<(), Refusal>
    ensures { record { number = outcome_number result; buffer = buffer.new } ≡ fetch_of job workspace.now buffer.old }
{
    check_fetch(job, workspace, buffer)?;
    workspace::result::write(workspace, buffer);
    Ok(())
}
