// The hand-in of a matrix for a sector, in the place of Load: it is loaded, or it waits for the sector's job to be fetched.
ghost use Rattle.std.specs.Prelude.{◌≡◌};
ghost use Rattle.desk.specs.HandIn.{HandInOutcome, must_wait_of, hand_in_of};
ghost use Rattle.desk.specs.Replies.{desk_load_reply};

use crate::Desk;
use crate::roles::Role;
use crate::sector::Sector;
use crate::waiting::take_in;
use engine::job::Job;
use refusals::Refusal;

// The sector's heard byte and job: as they stand where the matrix waits. Not the engine's Loaded, since then nothing is loaded.
#[derive(Clone, Copy)]
pub struct HandedIn {
    pub heard: u8,
    pub job: Job,
}

// What C is answered: the desk after the call, the refusal's number, and the sector's heard byte and job: as they stand where the matrix waits.
#[repr(C)]
#[derive(Clone, Copy)]
pub struct DeskLoadReply {
    pub desk: Desk,
    pub number: u8,
    pub heard: u8,
    pub job: Job,
}

impl DeskLoadReply {
    pub fn of(desk: Desk, outcome: Result<HandedIn, Refusal>) -> DeskLoadReply
        ensures { result ≡ desk_load_reply desk outcome }
    {
        match outcome {
            Ok(handed) => DeskLoadReply {
                desk,
                number: 0,
                heard: handed.heard,
                job: handed.job,
            },
            Err(refusal) => DeskLoadReply {
                desk,
                number: refusal.number(),
                heard: 0,
                job: Job::NONE,
            },
        }
    }
}

impl Desk {
    // Whether a matrix must wait: one waits already, or the sector's job is unfinished.
    #[tactic(auto, unfolding(crate::specs::HandIn::must_wait_of))]
    fn must_wait(&self, sector: Sector) -> bool
        ensures { result ≡ must_wait_of self.now sector }
    {
        self.waits(sector) || self.job(sector).is_unfinished()
    }

    // Hands in a matrix record for a sector, or refuses and changes nothing.
    #[tactic(auto, unfolding(crate::specs::HandIn::hand_in_of, crate::specs::HandIn::hand_in_refusal_of, crate::specs::HandIn::hand_in_by), using(crate::proofs::Refused::hand_in_refused, refusals::proofs::Outcomes::refused_first, refusals::proofs::Outcomes::passed_first))]
    pub fn hand_in(
        &mut self,
        role: u32,
        sector: u32,
        bytes: &[u8],
        area: &mut [i32],
    ) -> Result<HandedIn, Refusal>
        ensures { record { reply = desk_load_reply self.new result; area = area.new } ≡ hand_in_of role self.old sector bytes.now area.old }
    {
        Role::admit(role, Role::Operator)?;
        let sector = Sector::try_from(sector)?;
        let record = engine::load::check_load(bytes, area)?;
        if self.must_wait(sector) {
            self.keep(sector, record);
        } else {
            let heard = take_in(record, area);
            self.seat(sector, heard);
        }
        Ok(HandedIn {
            heard: self.heard_byte(sector),
            job: self.job(sector),
        })
    }
}
