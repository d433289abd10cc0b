// The kinds of entries: how long their bodies are, and how long they stay.
ghost use Rattle.std.specs.Prelude.{◌≡◌, ◌<◌};
ghost use Rattle.journal.specs.Entry.{body_length_of};
ghost use Rattle.journal.specs.Retention.{retention};
ghost use Rattle.journal.specs.Kind.{kind_number, Decodes};

use refusals::Refusal;

// What the body of an entry is: a result record, the number of a refusal, or the heard byte of a matrix.
#[derive(Clone, Copy, Debug, PartialEq, Eq)]
pub enum Kind {
    ResultRecord,
    RefusalNumber,
    HeardByte,
}

impl Kind {
    // The first byte of an entry of this kind.
    pub(crate) fn number(self) -> u8
        ensures { result ≡ kind_number self }
    {
        match self {
            Kind::ResultRecord => 5,
            Kind::RefusalNumber => 6,
            Kind::HeardByte => 7,
        }
    }

    // The length of the body of an entry.
    #[tactic(auto, unfolding(crate::specs::Entry::body_length_of))]
    pub(crate) fn body_length(self) -> usize
        ensures length { result ≡ body_length_of (kind_number self) }
        ensures small { result < 4096 }
    {
        match self {
            Kind::ResultRecord => 2049,
            Kind::RefusalNumber => 1,
            Kind::HeardByte => 1,
        }
    }

    // The days that an entry stays.
    #[tactic(auto, unfolding(crate::specs::Retention::retention))]
    pub(crate) fn retention_days(self) -> u32
        ensures { result ≡ retention (kind_number self) }
    {
        match self {
            Kind::ResultRecord => 7,
            Kind::RefusalNumber => 30,
            Kind::HeardByte => 90,
        }
    }
}

#[tactic(auto, unfolding(crate::specs::Entry::body_length_of))]
impl TryFrom<u32> for Kind {
    type Error = Refusal;

    ghost try_from_gives = { Decodes };

    fn try_from(number: u32) -> Result<Kind, Refusal> {
        match number {
            5 => Ok(Kind::ResultRecord),
            6 => Ok(Kind::RefusalNumber),
            7 => Ok(Kind::HeardByte),
            _ => Err(Refusal::WrongTag),
        }
    }
}
