// Why calls refuse, the test of a record's header, and the refusal record.

#![tactic(auto)]

ghost use Rattle.std.specs.Prelude.{◌≡◌, IfOk};
ghost use Rattle.refusals.specs.Refusals.{header_test, refusal_record_of};
ghost use Rattle.refusals.specs.Outcomes.{number_of, outcome_number};

// The first byte of a refusal record: a byte of the format, as the `tag` that `check_header` takes.
const TAG: u8 = 3;

// Why a call refuses. Replies and refusal records carry its number.
#[derive(Clone, Copy, Debug, PartialEq, Eq)]
pub enum Refusal {
    WrongTag,
    WrongLength,
    ShortWorkspace,
    NoneHeard,
    NoSuchJob,
    Unfinished,
    ShortBuffer,
    NotTriangular,
    NoneAdded,
    SumsOutOfRange,
    ZeroDiagonal,
    NoSuchSector,
    CountUsedUp,
    SharesExceedRound,
    NotAllowed,
    BrokenLog,
    NoRoom,
}

impl Refusal {
    pub fn number(self) -> u8
        ensures { result ≡ number_of self }
    {
        match self {
            Refusal::WrongTag => 1,
            Refusal::WrongLength => 2,
            Refusal::ShortWorkspace => 3,
            Refusal::NoneHeard => 4,
            Refusal::NoSuchJob => 5,
            Refusal::Unfinished => 6,
            Refusal::ShortBuffer => 7,
            Refusal::NotTriangular => 8,
            Refusal::NoneAdded => 9,
            Refusal::SumsOutOfRange => 10,
            Refusal::ZeroDiagonal => 11,
            Refusal::NoSuchSector => 12,
            Refusal::CountUsedUp => 13,
            Refusal::SharesExceedRound => 14,
            Refusal::NotAllowed => 15,
            Refusal::BrokenLog => 16,
            Refusal::NoRoom => 17,
        }
    }
}

// The number that a reply carries: that of the refusal, 0 for none.
pub fn reply_number(outcome: Result<(), Refusal>) -> u8
    ensures { result ≡ outcome_number outcome }
{
    match outcome {
        Ok(()) => 0,
        Err(refusal) => refusal.number(),
    }
}

// The test of the tag, then that of the length, whatever length is asked for. A tag is a byte of the format, and each record's crate knows its own
// alone: an enum of tags would join what no crate reads together.
#[tactic(auto, unfolding(crate::specs::Refusals::header_test))]
pub fn check_tag_and_length(bytes: &[u8], tag: u8, size: usize) -> Result<(), Refusal>
    ensures { outcome_number result ≡ header_test tag size bytes.now }
{
    if bytes.first() != Some(&tag) {
        return Err(Refusal::WrongTag);
    }
    if bytes.len() != size {
        return Err(Refusal::WrongLength);
    }
    Ok(())
}

// The same for a length that is a constant: the record of this tag and of N bytes that the bytes are.
#[tactic(auto, unfolding(crate::specs::Refusals::header_test))]
pub fn check_header<const N: usize>(bytes: &[u8], tag: u8) -> Result<&[u8; N], Refusal>
    ensures number { outcome_number result ≡ header_test tag N bytes.now }
    ensures same { IfOk result (λ checked. checked.now ≡ bytes.now) }
{
    check_tag_and_length(bytes, tag, N)?;
    bytes.try_into().map_err(|_| Refusal::WrongLength)
}

// The record of a refusal: its tag, and the number. Any number, and no `Refusal`, which would ask more of callers.
pub fn refusal_record(number: u8) -> [u8; 2]
    ensures { result ≡ refusal_record_of number }
{
    [TAG, number]
}
