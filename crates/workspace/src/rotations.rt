// Turns of the workspace, in the order of the schedule.
ghost use Rattle.std.specs.Prelude.{◌≡◌, ◌<◌, ◌≤◌, ◌+◌, length};
ghost use Rattle.schedule.specs.Schedule.{rotation_count};
ghost use Rattle.workspace.specs.Workspace.{workspace_words};
ghost use Rattle.workspace.specs.Rotations.{workspace_turned, workspace_saturations, workspace_made, words_after, saturations_counted, turns_made};

use rotation::{Saturations, Tally};
use schedule::Rotation;

// A turn of the workspace: of the part that begins at its upper row. Answers what it counts, and whether it is made.
#[tactic(auto, unfolding(crate::specs::Rotations::workspace_turned, crate::specs::Rotations::workspace_saturations, crate::specs::Rotations::workspace_made))]
fn turn_workspace(t: Rotation, workspace: &mut [i32]) -> Tally
    requires { (t.column < 16) × (t.upper < t.lower) × (t.lower < 16) × (workspace_words ≤ length workspace.old) }
    ensures words { workspace.new ≡ workspace_turned t workspace.old }
    ensures saturations { result.saturations ≡ workspace_saturations t workspace.old }
    ensures made { result.made ≡ workspace_made t workspace.old }
{
    let (_, rows) = workspace.split_at_mut(t.upper * 32);
    givens::rotate(rows, t.column, t.lower - t.upper)
}

// `count` turns of the workspace from turn number n on. Answers what they count, and how many of them are made.
pub fn take_turns(n: usize, count: usize, workspace: &mut [i32]) -> Tally
    requires { (n + count ≤ rotation_count) × (workspace_words ≤ length workspace.old) }
    ensures words { workspace.new ≡ words_after n count workspace.old }
    ensures saturations { result.saturations ≡ saturations_counted n count workspace.old }
    ensures made { result.made ≡ turns_made n count workspace.old }
{
    let mut made = 0;
    let mut saturations = Saturations::none();
    for k in n..n + count {
        let turn = turn_workspace(schedule::rotation_at(k), workspace);
        made += turn.made;
        saturations = saturations.plus(turn.saturations);
    }
    Tally { made, saturations }
}
