// The tests of what a caller lends: a workspace, and a buffer for a result record.
ghost use Rattle.std.specs.Prelude.{◌≡◌};
ghost use Rattle.refusals.specs.Refusals.{buffer_test};
ghost use Rattle.refusals.specs.Outcomes.{outcome_number};
ghost use Rattle.result_record.specs.ResultRecord.{result_bytes};
ghost use Rattle.workspace.specs.Workspace.{workspace_test};

use refusals::Refusal;

// The test that a workspace has at least the words that are worked on.
pub fn check_workspace(workspace: &[i32]) -> Result<(), Refusal>
    ensures { outcome_number result ≡ workspace_test workspace.now }
{
    if workspace.len() < workspace::WORDS {
        return Err(Refusal::ShortWorkspace);
    }
    Ok(())
}

// The test that a buffer has room for the record.
pub fn check_buffer(buffer: &[u8]) -> Result<(), Refusal>
    ensures { outcome_number result ≡ buffer_test result_bytes buffer.now }
{
    if buffer.len() < result_record::BYTES {
        return Err(Refusal::ShortBuffer);
    }
    Ok(())
}
