// Adding an entry behind the used bytes.
ghost use Rattle.std.specs.Prelude.{◌≡◌, ◌+◌, ◌≤◌, IfOk, length};
ghost use Rattle.refusals.specs.Outcomes.{outcome_number};
ghost use Rattle.journal.specs.Entry.{head_bytes};
ghost use Rattle.journal.specs.Outcome.{LogOutcome};
ghost use Rattle.journal.specs.Add.{log_add_refusal, log_add_of};
ghost use Rattle.journal.specs.Kind.{kind_number};
ghost use Rattle.journal.specs.Replies.{log_reply};

use crate::copy::put;
use crate::format::{HEAD_BYTES, Head, check_log};
use crate::kind::Kind;
use refusals::Refusal;

// The kind of the entry, if it is one that the log has, the body is as long as it says, and the entry fits behind the used bytes.
#[tactic(auto, unfolding(crate::specs::Add::log_add_refusal, crate::specs::Add::entry_test), using(refusals::proofs::Outcomes::refused_first, refusals::proofs::Outcomes::passed_first, crate::proofs::Calls::run_room, crate::proofs::Heads::has_body))]
fn check_add(kind: u32, body: &[u8], used: usize, buffer: &[u8]) -> Result<Kind, Refusal>
    ensures number { outcome_number result ≡ log_add_refusal kind body.now used buffer.now }
    ensures kind { IfOk result (λ known. kind ≡ kind_number known) }
    ensures room { IfOk result (λ _. used + head_bytes + length body.now ≤ length buffer.now) }
{
    check_log(used, buffer)?;
    let known = Kind::try_from(kind)?;
    if body.len() != known.body_length() {
        return Err(Refusal::WrongLength);
    }
    if buffer.len() - used < HEAD_BYTES + body.len() {
        return Err(Refusal::NoRoom);
    }
    Ok(known)
}

// Writes an entry behind the used bytes, or refuses and changes nothing. Answers the count of used bytes after it. The kind is a number, since the C
// interface has numbers, and one that is no kind is refused.
#[tactic(auto, using(crate::proofs::Calls::add_refused, crate::proofs::Calls::add_written))]
pub fn add(
    kind: u32,
    day: u32,
    body: &[u8],
    used: usize,
    buffer: &mut [u8],
) -> Result<usize, Refusal>
    ensures { record { reply = log_reply result; buffer = buffer.new } ≡ log_add_of kind day body.now used buffer.old }
{
    let kind = check_add(kind, body, used, buffer)?;
    let head = Head { kind, day };
    let at = used + HEAD_BYTES;
    let end = at + body.len();
    buffer[used..at].copy_from_slice(&head.bytes());
    put(body, &mut buffer[at..end]);
    Ok(end)
}
