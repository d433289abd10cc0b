// The format of the log: an entry's kind, its day number, high byte first, and its body.
ghost use Rattle.std.specs.Prelude.{◌≡◌, true, [], ◌∷◌, ◌+◌, ◌≤◌, length, take, MatchOption, IfOk};
ghost use Rattle.words.specs.Words.{uint32_bytes_of};
ghost use Rattle.refusals.specs.Refusals.{fails_unless, broken_log};
ghost use Rattle.refusals.specs.Outcomes.{outcome_number};
ghost use Rattle.journal.specs.Entry.{head_bytes, body_length_of};
ghost use Rattle.journal.specs.Held.{first_size, first_entry, is_some, entries, held};
ghost use Rattle.journal.specs.Retention.{is_kept};
ghost use Rattle.journal.specs.Kind.{kind_number};
ghost use Rattle.journal.specs.Head.{HeadsFirst};

use crate::kind::Kind;
use refusals::Refusal;

// The bytes of an entry before its body.
pub(crate) const HEAD_BYTES: usize = 5;

// What stands before an entry's body.
#[derive(Clone, Copy)]
pub(crate) struct Head {
    pub(crate) kind: Kind,
    pub(crate) day: u32,
}

impl Head {
    // The bytes of the head, the day number's high byte first.
    pub(crate) fn bytes(self) -> [u8; HEAD_BYTES]
        ensures { result ≡ kind_number self.kind ∷ uint32_bytes_of self.day }
    {
        let number = self.kind.number();
        let [a, b, c, d] = words::uint32_bytes(self.day);
        [number, a, b, c, d]
    }

    // The bytes of the entry, its body among them.
    pub(crate) fn entry_size(self) -> usize
        ensures { result ≡ head_bytes + body_length_of (kind_number self.kind) }
    {
        HEAD_BYTES + self.kind.body_length()
    }

    // Whether the entry stays in a sweep on this day. The sum of days has 64 bits, since a late day and the retention pass 32.
    #[tactic(auto, unfolding(crate::specs::Retention::is_kept))]
    pub(crate) fn stays(self, day: u32) -> bool
        ensures { result ≡ is_kept day (record { kind = kind_number self.kind; day = self.day; body = [] }) }
    {
        u64::from(day) < u64::from(self.day) + u64::from(self.kind.retention_days())
    }
}

// The head of the entry that the bytes begin with, if they begin with a whole one.
#[tactic(auto, unfolding(crate::specs::Held::first_size, crate::specs::Held::first_entry))]
pub(crate) fn first_head(bytes: &[u8]) -> Option<Head>
    ensures { MatchOption result (first_size bytes.now ≡ 0) (HeadsFirst bytes.now) }
{
    let [number, a, b, c, d, body @ ..] = bytes else {
        return None;
    };
    let kind = Kind::try_from(u32::from(*number)).ok()?;
    if body.len() < kind.body_length() {
        return None;
    }
    let day = words::unsigned32(*a, *b, *c, *d);
    Some(Head { kind, day })
}

// Whether the bytes are a whole run of entries.
#[tactic(auto, using(crate::proofs::Heads::run_behind, crate::proofs::Heads::run_end))]
fn is_log(bytes: &[u8]) -> bool
    ensures { result ≡ is_some (entries bytes.now) }
{
    let mut rest = bytes;
    while let Some(head) = first_head(rest) {
        rest = &rest[head.entry_size()..];
    }
    rest.is_empty()
}

// The test that the used bytes are within the buffer and a whole run of entries.
#[tactic(auto, using(crate::proofs::Runs::held_past, crate::proofs::Runs::held_within))]
pub(crate) fn check_log(used: usize, buffer: &[u8]) -> Result<(), Refusal>
    ensures number { outcome_number result ≡ fails_unless (is_some (held used buffer.now)) broken_log }
    ensures within { IfOk result (λ _. used ≤ length buffer.now) }
    ensures run { IfOk result (λ _. is_some (entries (take used buffer.now)) ≡ true) }
{
    let log = buffer.get(..used).ok_or(Refusal::BrokenLog)?;
    if !is_log(log) {
        return Err(Refusal::BrokenLog);
    }
    Ok(())
}
