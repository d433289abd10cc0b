// Sweeping out what is too old.
ghost use Rattle.std.specs.Prelude.{◌≡◌, true, ◌++◌, length, drop};
ghost use Rattle.journal.specs.Held.{is_some, entries};
ghost use Rattle.journal.specs.Outcome.{LogOutcome};
ghost use Rattle.journal.specs.Sweep.{log_sweep_of};
ghost use Rattle.journal.specs.Compaction.{kept_bytes};
ghost use Rattle.journal.specs.Replies.{log_reply};

use crate::format::{check_log, first_head};
use refusals::Refusal;

// Moves the entries that stay to the front, in their order; answers the bytes that they take. Bytes that stand in their place already are not copied.
fn compact(day: u32, log: &mut [u8]) -> usize
    requires { is_some (entries log.old) ≡ true }
    ensures count { result ≡ length (kept_bytes day (entries log.old)) }
    ensures bytes { log.new ≡ kept_bytes day (entries log.old) ++ drop (length (kept_bytes day (entries log.old))) log.old }
{
    // Places and no iterator, which would hold a loan of the log that the entries move within.
    let mut at = 0;
    let mut to = 0;
    while let Some(head) = first_head(&log[at..]) {
        let size = head.entry_size();
        if head.stays(day) {
            if to < at {
                log.copy_within(at..at + size, to);
            }
            to += size;
        }
        at += size;
    }
    to
}

// Drops the entries that are too old on this day and closes the gaps, or refuses and changes nothing. Answers the count of used bytes after it.
#[tactic(auto, using(crate::proofs::Calls::sweep_refused, crate::proofs::Calls::sweep_compacted))]
pub fn sweep(day: u32, used: usize, buffer: &mut [u8]) -> Result<usize, Refusal>
    ensures { record { reply = log_reply result; buffer = buffer.new } ≡ log_sweep_of day used buffer.old }
{
    check_log(used, buffer)?;
    Ok(compact(day, &mut buffer[..used]))
}
