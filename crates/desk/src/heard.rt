// The heard byte of a sector, for all three roles.
ghost use Rattle.std.specs.Prelude.{◌≡◌};
ghost use Rattle.desk.specs.Heard.{desk_heard_of};
ghost use Rattle.desk.specs.Replies.{desk_heard_reply};

use crate::Desk;
use crate::roles::Role;
use crate::sector::Sector;
use refusals::Refusal;

// What C is answered: the desk as it was, the refusal's number, and the heard byte.
#[repr(C)]
#[derive(Clone, Copy)]
pub struct DeskHeardReply {
    pub desk: Desk,
    pub number: u8,
    pub heard: u8,
}

impl DeskHeardReply {
    pub fn of(desk: Desk, outcome: Result<u8, Refusal>) -> DeskHeardReply
        ensures { result ≡ desk_heard_reply desk outcome }
    {
        match outcome {
            Ok(heard) => DeskHeardReply {
                desk,
                number: 0,
                heard,
            },
            Err(refusal) => DeskHeardReply {
                desk,
                number: refusal.number(),
                heard: 0,
            },
        }
    }
}

impl Desk {
    // The sector's heard byte, or a refusal.
    #[tactic(auto, unfolding(crate::specs::Heard::desk_heard_of, crate::specs::Heard::desk_heard_by), using(crate::proofs::Refused::heard_refused, refusals::proofs::Outcomes::refused_first, refusals::proofs::Outcomes::passed_first))]
    pub fn heard(&self, role: u32, sector: u32) -> Result<u8, Refusal>
        ensures { desk_heard_reply self.now result ≡ desk_heard_of role self.now sector }
    {
        Role::admit(role, Role::Viewer)?;
        let sector = Sector::try_from(sector)?;
        Ok(self.heard_byte(sector))
    }
}
