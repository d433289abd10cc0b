// The log of results, refusals and heard bytes, for C and Rust hosts: each call hands on what the library answers, as C has it.
ghost use Rattle.std.specs.Prelude.{◌≡◌};
ghost use Rattle.journal.specs.Outcome.{LogOutcome};
ghost use Rattle.journal.specs.Add.{log_add_of};
ghost use Rattle.journal.specs.Sweep.{log_sweep_of};
ghost use Rattle.journal.specs.Next.{log_next_of};

use journal::LogReply;
use journal::next::LogEntry;

pub fn hubqr_log_add(kind: u32, day: u32, body: &[u8], used: usize, buffer: &mut [u8]) -> LogReply
    ensures { record { reply = result; buffer = buffer.new } ≡ log_add_of kind day body.now used buffer.old }
{
    journal::add::add(kind, day, body, used, buffer).into()
}

pub fn hubqr_log_sweep(day: u32, used: usize, buffer: &mut [u8]) -> LogReply
    ensures { record { reply = result; buffer = buffer.new } ≡ log_sweep_of day used buffer.old }
{
    journal::sweep::sweep(day, used, buffer).into()
}

pub fn hubqr_log_next(at: usize, used: usize, buffer: &[u8]) -> LogEntry
    ensures { result ≡ log_next_of at used buffer.now }
{
    LogEntry::at(at, journal::next::next(at, used, buffer))
}
