// The calls of the cases, each with the line that is written for it. Number 0 stands for a call that is accepted.
use crate::digest;
use engine::job::Job;
use std::io;

// The area that a host lends to the calls, and where the lines are written.
#[derive(Drop)]
pub struct Host<'a, P: Print> {
    pub rt: &'a P,
    pub area: &'a mut [i32],
}

impl<P: Print> Host<'_, P> {
    // Answers the job of the record, unless it is refused.
    pub fn load(&mut self, record: &[u8]) -> io::Result<Option<Job>> {
        let reply = hubqr::hubqr_load(record, self.area);
        println!(self.rt;
            "  Load of {} bytes into {} words: number {}, job ({}, {}), heard {}; area {}",
            record.len(),
            self.area.len(),
            reply.number,
            reply.job.turn,
            reply.job.made,
            reply.heard,
            digest::of_words(self.area)
        )?;
        Ok((reply.number == 0).then_some(reply.job))
    }

    // Answers the next job.
    pub fn run(&mut self, job: Job, allowance: u16) -> io::Result<Job> {
        let reply = hubqr::hubqr_run(job, allowance, self.area);
        println!(self.rt;
            "  Run of {allowance} from job ({}, {}): number {}, next job ({}, {}), count {}, clamps {} in R, {} in Q; area {}",
            job.turn,
            job.made,
            reply.number,
            reply.job.turn,
            reply.job.made,
            reply.count,
            reply.clamps_r,
            reply.clamps_q,
            digest::of_words(self.area)
        )?;
        Ok(reply.job)
    }

    pub fn fetch(&self, job: Job, buffer: &mut [u8]) -> io::Result<()> {
        let number = hubqr::hubqr_fetch(job, self.area, buffer);
        println!(self.rt;
            "  Fetch at job ({}, {}): number {number}; buffer {}",
            job.turn,
            job.made,
            digest::of_bytes(buffer)
        )
    }
}
