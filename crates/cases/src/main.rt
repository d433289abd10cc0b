// Executes the cases that are only run, and that no theorem is about, through the calls that hosts link. Each call becomes a line: what was handed
// over, the reply, and a digest of the memory that it may write to.

#![tactic(auto)]

mod digest;
mod host;
mod matrix;

use engine::job::Job;
use host::Host;
use matrix::Matrix;
use std::io;

fn main(rt: HostRuntime) -> io::Result<()> {
    println!(rt; "{}", Matrix::Full)?;
    sizes(&rt)?;
    for allowance in [119, 120, 121] {
        turns(&rt, Matrix::Full, allowance)?;
    }
    for matrix in [
        Matrix::Single,
        Matrix::Lowest,
        Matrix::Sixteen,
        Matrix::Seventeen,
        Matrix::OneHeard,
        Matrix::Negative,
        Matrix::Diagonal,
        Matrix::Half,
    ] {
        println!(rt; "{matrix}")?;
        turns(&rt, matrix, 120)?;
    }
    println!(rt; "Jobs, with parts of all sizes")?;
    jobs(&rt)
}

// An area of 513 words, with a 7 in each before: a record of 257 bytes, then 258 bytes, which are refused and change nothing, then all turns.
// No call may change the 513th word.
fn sizes(rt: &impl Print) -> io::Result<()> {
    let record = Matrix::Full.record();
    let mut longer = [0; 258];
    longer[..257].copy_from_slice(&record);
    let mut host = Host {
        rt,
        area: &mut [7; 513],
    };
    host.load(&record)?;
    host.load(&longer)?;
    host.run(job(0, 0), 120)?;
    if host.area.last() == Some(&7) {
        println!(rt; "  The 513th word is as it was")?;
    }
    Ok(())
}

// An area of 512 words: a Run from the first turn on, then a Run of 1, which takes the last turn after 119 turns and none at turn 120, then a Fetch.
// Where no antenna is heard the record is refused, and the area keeps the 7 in each of its words.
fn turns(rt: &impl Print, matrix: Matrix, allowance: u16) -> io::Result<()> {
    let mut host = Host {
        rt,
        area: &mut [7; 512],
    };
    let mut buffer = [7; 2049];
    if let Some(job) = host.load(&matrix.record())? {
        let next = host.run(job, allowance)?;
        let last = host.run(next, 1)?;
        host.fetch(last, &mut buffer)?;
    }
    Ok(())
}

// Jobs with more turns made than their turn number, or a turn number above 120, are refused; as many made as the turn number are not.
fn jobs(rt: &impl Print) -> io::Result<()> {
    let mut host = Host {
        rt,
        area: &mut [7; 512],
    };
    let mut buffer = [7; 2049];
    host.load(&Matrix::Full.record())?;
    host.run(job(5, 6), 7)?;
    host.fetch(job(5, 6), &mut buffer)?;
    host.run(job(121, 0), 7)?;
    host.run(job(6, 6), 0)?;
    host.fetch(job(119, 119), &mut buffer)?;
    host.fetch(job(120, 121), &mut buffer)
}

fn job(turn: u32, made: u32) -> Job {
    Job { turn, made }
}
