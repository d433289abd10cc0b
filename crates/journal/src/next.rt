// Reading a log entry by entry.
ghost use Rattle.std.specs.Prelude.{◌≡◌};
ghost use Rattle.journal.specs.Next.{log_next_of};
ghost use Rattle.journal.specs.Replies.{log_entry};

use crate::format::{HEAD_BYTES, first_head};
use crate::kind::Kind;
use refusals::Refusal;
use std::ops::Range;

// An entry of a log, and where its body stands in the buffer. The next entry stands behind the body.
#[derive(Debug, Drop)]
pub struct FoundEntry {
    pub kind: Kind,
    pub day: u32,
    pub body: Range<usize>,
}

// What C is answered: the refusal's number, the entry's kind and day, where its body stands and how long that is, and where the
// next entry stands. At the end of the used bytes stands no entry, and the kind is 0.
#[repr(C)]
#[derive(Clone, Copy)]
pub struct LogEntry {
    pub number: u8,
    pub kind: u32,
    pub day: u32,
    pub body: usize,
    pub body_len: usize,
    pub next: usize,
}

impl LogEntry {
    // What stands at a place, for C.
    pub fn at(place: usize, outcome: Result<Option<FoundEntry>, Refusal>) -> LogEntry
        ensures { result ≡ log_entry place outcome }
    {
        let none = LogEntry {
            number: 0,
            kind: 0,
            day: 0,
            body: 0,
            body_len: 0,
            next: 0,
        };
        match outcome {
            Ok(Some(FoundEntry { kind, day, body })) => LogEntry {
                number: 0,
                kind: u32::from(kind.number()),
                day,
                body: body.start,
                body_len: body.len(),
                next: body.end,
            },
            Ok(None) => LogEntry {
                next: place,
                ..none
            },
            Err(refusal) => LogEntry {
                number: refusal.number(),
                ..none
            },
        }
    }
}

// The entry at a place of the used bytes, none at their end, or a refusal. It looks at this entry alone, so that reading a log takes time linear in its
// length.
#[tactic(auto, using(crate::proofs::Calls::next_outside, crate::proofs::Calls::next_none, crate::proofs::Calls::next_cut))]
pub fn next(at: usize, used: usize, buffer: &[u8]) -> Result<Option<FoundEntry>, Refusal>
    ensures { log_entry at result ≡ log_next_of at used buffer.now }
{
    let rest = buffer.get(at..used).ok_or(Refusal::BrokenLog)?;
    if rest.is_empty() {
        return Ok(None);
    }
    let head = first_head(rest).ok_or(Refusal::BrokenLog)?;
    let body = at + HEAD_BYTES;
    let next = at + head.entry_size();
    Ok(Some(FoundEntry {
        kind: head.kind,
        day: head.day,
        body: body..next,
    }))
}
