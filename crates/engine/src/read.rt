// Read: a result record becomes the words of a workspace again.
ghost use Rattle.std.specs.Prelude.{◌≡◌, IfOk};
ghost use Rattle.refusals.specs.Outcomes.{outcome_number};
ghost use Rattle.engine.specs.Read.{ReadOutcome, read_reply, read_refusal_of, read_of};

use crate::job::Job;
use crate::lent::check_workspace;
use refusals::Refusal;

// What C is answered: the refusal's number and the job.
#[repr(C)]
#[derive(Clone, Copy)]
pub struct ReadReply {
    pub number: u8,
    pub job: Job,
}

impl From<Result<Job, Refusal>> for ReadReply {
    ghost from_gives = { λ outcome reply. reply ≡ read_reply outcome };

    fn from(outcome: Result<Job, Refusal>) -> ReadReply {
        match outcome {
            Ok(job) => ReadReply { number: 0, job },
            Err(refusal) => ReadReply {
                number: refusal.number(),
                job: Job::NONE,
            },
        }
    }
}

// The record that the bytes are, tested in this order: its tag, its length, the workspace's room, and that its R is finished.
#[tactic(auto, unfolding(crate::specs::Read::read_refusal_of), using(refusals::proofs::Outcomes::refused_first, refusals::proofs::Outcomes::passed_first))]
pub fn check_read<'a>(
    bytes: &'a [u8],
    workspace: &[i32],
) -> Result<&'a [u8; result_record::BYTES], Refusal>
    ensures number { outcome_number result ≡ read_refusal_of bytes.now workspace.now }
    ensures same { IfOk result (λ checked. checked.now ≡ bytes.now) }
{
    let checked = result_record::check_header(bytes)?;
    check_workspace(workspace)?;
    if !result_record::record_finished(checked) {
        return Err(Refusal::NotTriangular);
    }
    Ok(checked)
}

// Reads a result record back into a workspace, and answers the job that fetches it; or refuses and changes nothing.
pub fn read(bytes: &[u8], workspace: &mut [i32]) -> Result<Job, Refusal>
    ensures { record { reply = read_reply result; workspace = workspace.new } ≡ read_of bytes.now workspace.old }
{
    let checked = check_read(bytes, workspace)?;
    workspace::filling::fill(checked, workspace);
    Ok(Job::FINISHED)
}
