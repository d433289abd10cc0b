// Whole: Load, all turns and the result record in one call.
ghost use Rattle.std.specs.Prelude.{◌≡◌, IfOk};
ghost use Rattle.refusals.specs.Outcomes.{outcome_number};
ghost use Rattle.engine.specs.Whole.{WholeOutcome, whole_reply, whole_refusal_of, whole_of};

use crate::lent::{check_buffer, check_workspace};
use refusals::Refusal;
use rotation::Saturations;

// The heard byte and the clamps.
#[derive(Clone, Copy)]
pub struct Factored {
    pub heard: u8,
    pub clamps: Saturations,
}

// What C is answered: the refusal's number, the heard byte, the clamps in R and the clamps in Q.
#[repr(C)]
#[derive(Clone, Copy)]
pub struct WholeReply {
    pub number: u8,
    pub heard: u8,
    pub clamps_r: u32,
    pub clamps_q: u32,
}

impl From<Result<Factored, Refusal>> for WholeReply {
    ghost from_gives = { λ outcome reply. reply ≡ whole_reply outcome };

    fn from(outcome: Result<Factored, Refusal>) -> WholeReply {
        match outcome {
            Ok(factored) => WholeReply {
                number: 0,
                heard: factored.heard,
                clamps_r: factored.clamps.r,
                clamps_q: factored.clamps.q,
            },
            Err(refusal) => WholeReply {
                number: refusal.number(),
                heard: 0,
                clamps_r: 0,
                clamps_q: 0,
            },
        }
    }
}

// The record that the bytes are, tested in this order: its tag, its length, the workspace's room, the buffer's room, and that an antenna is heard.
#[tactic(auto, unfolding(crate::specs::Whole::whole_refusal_of), using(refusals::proofs::Outcomes::refused_first, refusals::proofs::Outcomes::passed_first))]
pub fn check_whole<'a>(
    bytes: &'a [u8],
    workspace: &[i32],
    buffer: &[u8],
) -> Result<&'a [u8; matrix_record::BYTES], Refusal>
    ensures number { outcome_number result ≡ whole_refusal_of bytes.now workspace.now buffer.now }
    ensures same { IfOk result (λ checked. checked.now ≡ bytes.now) }
{
    let checked = matrix_record::check_header(bytes)?;
    check_workspace(workspace)?;
    check_buffer(buffer)?;
    if matrix_record::heard_byte(checked) == 0 {
        return Err(Refusal::NoneHeard);
    }
    Ok(checked)
}

// Factors a matrix record into a result record, or refuses and changes nothing.
pub fn whole(bytes: &[u8], workspace: &mut [i32], buffer: &mut [u8]) -> Result<Factored, Refusal>
    ensures { record { reply = whole_reply result; workspace = workspace.new; buffer = buffer.new } ≡ whole_of bytes.now workspace.old buffer.old }
{
    let checked = check_whole(bytes, workspace, buffer)?;
    workspace::filling::fill(checked, workspace);
    let tally = workspace::rotations::take_turns(0, schedule::COUNT, workspace);
    workspace::result::write(workspace, buffer);
    let heard = matrix_record::heard_byte(checked);
    Ok(Factored {
        heard,
        clamps: tally.saturations,
    })
}
