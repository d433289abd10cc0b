// A log in a lent buffer: results, refusals and heard bytes, one entry after another, each kept for as many days as its kind. Each call tests its own input,
// the log first and whether an entry fits last, and refuses for the reason of the first test that fails. The caller keeps the count of used bytes:
// a number beside the buffer, as the C interface hands them.

#![tactic(auto)]

pub mod add;
mod copy;
mod format;
pub mod kind;
pub mod next;
pub mod sweep;

ghost use Rattle.std.specs.Prelude.{◌≡◌};
ghost use Rattle.journal.specs.Replies.{log_reply};

use refusals::Refusal;

// What C is answered: the refusal's number, and the count of used bytes after the call. A refusal answers 0 for it, and the count
// that the caller has goes on holding.
#[repr(C)]
#[derive(Clone, Copy)]
pub struct LogReply {
    pub number: u8,
    pub used: usize,
}

impl From<Result<usize, Refusal>> for LogReply {
    ghost from_gives = { λ outcome reply. reply ≡ log_reply outcome };

    fn from(outcome: Result<usize, Refusal>) -> LogReply {
        match outcome {
            Ok(used) => LogReply { number: 0, used },
            Err(refusal) => LogReply {
                number: refusal.number(),
                used: 0,
            },
        }
    }
}
