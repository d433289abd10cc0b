// A desk for eight sectors over the engine: each sector has its own job, heard byte and area, its own share of a round, and room for one matrix that waits.
// The host keeps the desk and lends it to each call. Each call but the making of a new desk is handed the numbers of the role of whoever makes it and of the
// sector, since the C interface has numbers, tests its own input and refuses by the first test that fails, with the desk and every lent buffer as they were.

#![tactic(auto)]

pub mod fetch;
pub mod hand_in;
pub mod heard;
mod roles;
pub mod rounds;
pub mod run;
mod sector;
pub mod shares;
mod waiting;

ghost use Rattle.std.specs.Prelude.{◌≡◌};
ghost use Rattle.desk.specs.Desk.{new_desk};
ghost use Rattle.desk.specs.Replies.{desk_reply};

use engine::job::Job;
use refusals::Refusal;

// What the shares of all sectors make at most, and so the turns of a round.
pub const ROUND_TURNS: u16 = 120;

// The share of each sector at first.
pub const FIRST_SHARE: u16 = 15;

// The numbers by which the C interface has the roles.
pub const VIEWER: u32 = 0;

pub const FITTER: u32 = 1;

pub const OPERATOR: u32 = 2;

// Arrays, flags and counts of sectors side by side are the C interface's: of each sector the job, the heard byte, the share, the turns that it has left in
// the round, whether a matrix waits (0 is no, any other number is yes), and its record: 257 bytes from 257 times the sector on.
#[repr(C)]
#[derive(Clone, Copy)]
pub struct Desk {
    pub jobs: [Job; 8],
    pub heard: [u8; 8],
    pub shares: [u16; 8],
    pub left: [u16; 8],
    pub waits: [u8; 8],
    // One array of bytes and not [[u8; 257]; 8], though C would see the same: the definitions `new_desk`, `record_in` and `kept`, which the laws of the desk cite,
    // speak of one list.
    pub records: [u8; 2056],
}

// What C is answered: the desk after a call, and the refusal's number.
#[repr(C)]
#[derive(Clone, Copy)]
pub struct DeskReply {
    pub desk: Desk,
    pub number: u8,
}

impl DeskReply {
    // No From, here and in the other replies: the desk goes into the reply beside the outcome.
    pub fn of(desk: Desk, outcome: Result<(), Refusal>) -> DeskReply
        ensures { result ≡ desk_reply desk outcome }
    {
        DeskReply {
            desk,
            number: refusals::reply_number(outcome),
        }
    }
}

impl Desk {
    // A desk with no sector loaded and no matrix waiting, at the start of a round.
    pub fn new() -> Desk
        ensures { result ≡ new_desk }
    {
        Desk {
            jobs: [Job::FINISHED; 8],
            heard: [0; 8],
            shares: [FIRST_SHARE; 8],
            left: [FIRST_SHARE; 8],
            waits: [0; 8],
            records: [0; 2056],
        }
    }
}
