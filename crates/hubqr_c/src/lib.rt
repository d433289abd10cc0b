// The calls of `hubqr` as libhubqr.a exports them for C and Rust hosts. Each hands on the call of its name and states its clause again, and the
// headers in include/ declare each. They are twins of those of `hubqr`, since the C interface wants a function of each name and a library for others may
// export none.

#![tactic(auto)]

pub mod boards;
pub mod log;
pub mod modem;
pub mod sectors;
pub mod snapshots;

ghost use Rattle.std.specs.Prelude.{◌≡◌};
ghost use Rattle.engine.specs.Load.{LoadOutcome, load_of};
ghost use Rattle.engine.specs.Run.{RunOutcome, run_of};
ghost use Rattle.engine.specs.Fetch.{FetchOutcome, fetch_of};
ghost use Rattle.engine.specs.Read.{ReadOutcome, read_of};
ghost use Rattle.engine.specs.Whole.{WholeOutcome, whole_of};

use engine::job::Job;
use engine::load::LoadReply;
use engine::read::ReadReply;
use engine::run::RunReply;
use engine::whole::WholeReply;

#[unsafe(no_mangle)]
pub extern "C" fn hubqr_load(bytes: &[u8], area: &mut [i32]) -> LoadReply
    ensures { record { reply = result; workspace = area.new } ≡ load_of bytes.now area.old }
{
    hubqr::hubqr_load(bytes, area)
}

#[unsafe(no_mangle)]
pub extern "C" fn hubqr_run(job: Job, allowance: u16, area: &mut [i32]) -> RunReply
    ensures { record { reply = result; workspace = area.new } ≡ run_of job allowance area.old }
{
    hubqr::hubqr_run(job, allowance, area)
}

#[unsafe(no_mangle)]
pub extern "C" fn hubqr_fetch(job: Job, area: &[i32], buffer: &mut [u8]) -> u8
    ensures { record { number = result; buffer = buffer.new } ≡ fetch_of job area.now buffer.old }
{
    hubqr::hubqr_fetch(job, area, buffer)
}

#[unsafe(no_mangle)]
pub extern "C" fn hubqr_read(bytes: &[u8], area: &mut [i32]) -> ReadReply
    ensures { record { reply = result; workspace = area.new } ≡ read_of bytes.now area.old }
{
    hubqr::hubqr_read(bytes, area)
}

#[unsafe(no_mangle)]
pub extern "C" fn hubqr_whole(bytes: &[u8], area: &mut [i32], buffer: &mut [u8]) -> WholeReply
    ensures { record { reply = result; workspace = area.new; buffer = buffer.new } ≡ whole_of bytes.now area.old buffer.old }
{
    hubqr::hubqr_whole(bytes, area, buffer)
}

// The version of this archive, 10,000 times the major, 100 times the minor and the patch number.
#[unsafe(no_mangle)]
pub extern "C" fn hubqr_version() -> u32
    ensures { result ≡ 1300 }
{
    hubqr::hubqr_version()
}
