// The engine's five calls for C and Rust hosts. Each makes of what the engine answers the reply that a host reads: the refusal's number, 0 for
// none, and the call's values. Hosts know a workspace as an area, and a budget as an allowance.
// Here and in the other files numbers stand for refusals, roles, sectors and kinds, since these are the calls that C makes.

#![tactic(auto)]

pub mod boards;
pub mod log;
pub mod modem;
pub mod sectors;
pub mod snapshots;

ghost use Rattle.std.specs.Prelude.{◌≡◌};
ghost use Rattle.engine.specs.Load.{LoadOutcome, load_of};
ghost use Rattle.engine.specs.Run.{RunOutcome, run_of};
ghost use Rattle.engine.specs.Fetch.{FetchOutcome, fetch_of};
ghost use Rattle.engine.specs.Read.{ReadOutcome, read_of};
ghost use Rattle.engine.specs.Whole.{WholeOutcome, whole_of};

use engine::job::Job;
use engine::load::LoadReply;
use engine::read::ReadReply;
use engine::run::RunReply;
use engine::whole::WholeReply;

pub fn hubqr_load(bytes: &[u8], area: &mut [i32]) -> LoadReply
    ensures { record { reply = result; workspace = area.new } ≡ load_of bytes.now area.old }
{
    engine::load::load(bytes, area).into()
}

pub fn hubqr_run(job: Job, allowance: u16, area: &mut [i32]) -> RunReply
    ensures { record { reply = result; workspace = area.new } ≡ run_of job allowance area.old }
{
    RunReply::of(job, engine::run::run(job, allowance, area))
}

pub fn hubqr_fetch(job: Job, area: &[i32], buffer: &mut [u8]) -> u8
    ensures { record { number = result; buffer = buffer.new } ≡ fetch_of job area.now buffer.old }
{
    refusals::reply_number(engine::fetch::fetch(job, area, buffer))
}

pub fn hubqr_read(bytes: &[u8], area: &mut [i32]) -> ReadReply
    ensures { record { reply = result; workspace = area.new } ≡ read_of bytes.now area.old }
{
    engine::read::read(bytes, area).into()
}

pub fn hubqr_whole(bytes: &[u8], area: &mut [i32], buffer: &mut [u8]) -> WholeReply
    ensures { record { reply = result; workspace = area.new; buffer = buffer.new } ≡ whole_of bytes.now area.old buffer.old }
{
    engine::whole::whole(bytes, area, buffer).into()
}

// The version of this archive, 10,000 times the major, 100 times the minor and the patch number.
pub fn hubqr_version() -> u32
    ensures { result ≡ 1300 }
{
    1300
}
