// A sector, and what the calls read and change of it.
ghost use Rattle.std.specs.Prelude.{◌≡◌, ◌<◌, IfOk};
ghost use Rattle.refusals.specs.Outcomes.{outcome_number};
ghost use Rattle.desk.specs.Desk.{sector_test, job_at_of, heard_at_of, left_at_of, seated, paid};

use crate::Desk;
use engine::job::Job;
use refusals::Refusal;
use std::marker::Model;

// How many there are.
const SECTORS: usize = 8;

// Contracts see its number, which is under 8.
#[derive(Clone, Copy)]
pub struct Sector {
    index: usize,
}

impl Model for Sector {
    ghost use Rattle.std.specs.Prelude.{ℕ, ◌<◌};

    ghost Value = { ℕ };

    ghost view = { λ s. s.index };

    ghost invariant = { λ s. s.index < 8 };

    ghost inverse = { λ n. record { index = n } };
}

// The sector of this number, if there is one.
impl TryFrom<u32> for Sector {
    type Error = Refusal;

    ghost try_from_gives = { λ number result. (outcome_number result ≡ sector_test number) × IfOk result (λ sector. sector ≡ number) };

    fn try_from(number: u32) -> Result<Sector, Refusal> {
        // A cast and no TryFrom, whose error cannot come: a usize has all numbers of 32 bits.
        let index = number as usize;
        if index >= SECTORS {
            return Err(Refusal::NoSuchSector);
        }
        Ok(Sector { index })
    }
}

impl Sector {
    pub fn index(self) -> usize
        ensures same { result ≡ self }
        ensures below { result < 8 }
    {
        self.index
    }
}

impl Desk {
    pub(crate) fn job(&self, sector: Sector) -> Job
        ensures { result ≡ job_at_of self.now sector }
    {
        self.jobs[sector.index()]
    }

    pub(crate) fn heard_byte(&self, sector: Sector) -> u8
        ensures { result ≡ heard_at_of self.now sector }
    {
        self.heard[sector.index()]
    }

    // The turns that the sector has left in the round.
    pub(crate) fn left(&self, sector: Sector) -> u16
        ensures { result ≡ left_at_of self.now sector }
    {
        self.left[sector.index()]
    }

    // The sector has the job (0, 0) and this heard byte, and no matrix of its own waits.
    pub(crate) fn seat(&mut self, sector: Sector, heard: u8)
        ensures { self.new ≡ seated self.old sector heard }
    {
        let at = sector.index();
        self.jobs[at] = Job::LOADED;
        self.heard[at] = heard;
        self.waits[at] = 0;
    }

    // The sector has this job, which its own count has paid: `left` turns of it are left.
    pub(crate) fn pay(&mut self, sector: Sector, job: Job, left: u16)
        ensures { self.new ≡ paid self.old sector job left }
    {
        let at = sector.index();
        self.jobs[at] = job;
        self.left[at] = left;
    }
}
