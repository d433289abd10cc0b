// A caller of all calls, proved from their contracts alone: a factorization in two instalments, a stored result fetched again, a copy of a result,
// the matrix of two snapshots, the weights of a matrix, the verdict on a result just made, a log swept and added to, a sector served at a desk with the
// next matrix early, and a round begun there. Each answers the replies of all calls that it makes, so that whoever calls it sees the first refusal. The
// words here are those of the headers in include/. Replies are numbers with values beside them and no `Result`, since these are the calls as C has them.

#![tactic(auto)]

ghost use Rattle.std.specs.Prelude.{◌≡◌};
ghost use Rattle.journal.specs.Outcome.{used_after_of};
ghost use Rattle.caller.specs.Caller.{HalvesOutcome, halves_of, AgainOutcome, again_of, CopyOutcome, copy_of, PairOutcome, pair_of, WeighedOutcome, weighed_of, VerifiedOutcome, verified_of, DailyOutcome, daily_of, ServedOutcome, served_of, RoundOutcome, round_of};

use desk::hand_in::DeskLoadReply;
use desk::heard::DeskHeardReply;
use desk::run::DeskRunReply;
use desk::shares::Shares;
use desk::{Desk, DeskReply, OPERATOR, VIEWER};
use engine::job::Job;
use engine::load::LoadReply;
use engine::read::ReadReply;
use engine::run::RunReply;
use engine::whole::WholeReply;
use hubqr::snapshots::Snapshot;
use journal::LogReply;
use journal::next::LogEntry;
use verify::Verdict;
use weights::WeightsReply;

// The turns of one instalment: half of them.
const HALF: u16 = 60;

// The replies of Load, of both Runs and of Fetch.
#[derive(Clone, Copy)]
pub struct HalvesReply {
    pub load: LoadReply,
    pub first: RunReply,
    pub second: RunReply,
    pub number: u8,
}

// The replies of Read and of Fetch.
#[derive(Clone, Copy)]
pub struct AgainReply {
    pub read: ReadReply,
    pub number: u8,
}

// The replies of Whole and of Fetch.
#[derive(Clone, Copy)]
pub struct CopyReply {
    pub whole: WholeReply,
    pub number: u8,
}

// The numbers of both additions and of the writing.
#[derive(Clone, Copy)]
pub struct PairReply {
    pub first: u8,
    pub second: u8,
    pub written: u8,
}

// The replies of Whole and of the weights.
#[derive(Clone, Copy)]
pub struct WeighedReply {
    pub whole: WholeReply,
    pub weights: WeightsReply,
}

// The replies of Whole and of the verdict.
#[derive(Clone, Copy)]
pub struct VerifiedReply {
    pub whole: WholeReply,
    pub verdict: Verdict,
}

// The replies of the sweep, of the add and of the reader.
#[derive(Clone, Copy)]
pub struct DailyReply {
    pub swept: LogReply,
    pub added: LogReply,
    pub first: LogEntry,
}

// The replies of the setting of shares and the begin of a round, and of both hand-ins, Run and Fetch for a sector.
#[derive(Clone, Copy)]
pub struct ServedReply {
    pub set: DeskReply,
    pub begun: DeskReply,
    pub first: DeskLoadReply,
    pub early: DeskLoadReply,
    pub run: DeskRunReply,
    pub fetch: DeskReply,
}

// The replies of the begin of a round, of Run and of the call for the heard byte.
#[derive(Clone, Copy)]
pub struct RoundReply {
    pub begun: DeskReply,
    pub run: DeskRunReply,
    pub heard: DeskHeardReply,
}

// Load, the turns in two halves, and Fetch.
pub fn factor_in_halves(bytes: &[u8], area: &mut [i32], buffer: &mut [u8]) -> HalvesReply
    ensures { record { reply = result; workspace = area.new; buffer = buffer.new } ≡ halves_of bytes.now area.old buffer.old }
{
    let load = hubqr::hubqr_load(bytes, area);
    let first = hubqr::hubqr_run(load.job, HALF, area);
    let second = hubqr::hubqr_run(first.job, HALF, area);
    let number = hubqr::hubqr_fetch(second.job, area, buffer);
    HalvesReply {
        load,
        first,
        second,
        number,
    }
}

// Read, and Fetch of what it read.
pub fn fetch_again(bytes: &[u8], area: &mut [i32], buffer: &mut [u8]) -> AgainReply
    ensures { record { reply = result; workspace = area.new; buffer = buffer.new } ≡ again_of bytes.now area.old buffer.old }
{
    let read = hubqr::hubqr_read(bytes, area);
    let number = hubqr::hubqr_fetch(read.job, area, buffer);
    AgainReply { read, number }
}

// Whole, and Fetch of the same result into a second buffer. Whole answers no job, and the one of a record that was read will do.
pub fn fetch_copy(bytes: &[u8], area: &mut [i32], buffer: &mut [u8], copy: &mut [u8]) -> CopyReply
    ensures { record { reply = result; workspace = area.new; buffer = buffer.new; copy = copy.new } ≡ copy_of bytes.now area.old buffer.old copy.old }
{
    let whole = hubqr::hubqr_whole(bytes, area, buffer);
    let job = Job { turn: 120, made: 0 };
    let number = hubqr::hubqr_fetch(job, area, copy);
    CopyReply { whole, number }
}

// Two snapshots added up, and the matrix record of the sums.
pub fn matrix_of_two(first: Snapshot, second: Snapshot, buffer: &mut [u8]) -> PairReply
    ensures { record { reply = result; buffer = buffer.new } ≡ pair_of first.samples second.samples buffer.old }
{
    let none = hubqr::snapshots::hubqr_sums_none();
    let one = hubqr::snapshots::hubqr_add_snapshot(first, none);
    let sum = one.sums;
    let two = hubqr::snapshots::hubqr_add_snapshot(second, sum);
    let sums = two.sums;
    let written = hubqr::snapshots::hubqr_write_matrix(sums, buffer);
    PairReply {
        first: one.number,
        second: two.number,
        written,
    }
}

// Whole, and the weights of what the buffer then holds.
pub fn factor_and_weigh(
    bytes: &[u8],
    targets: Snapshot,
    area: &mut [i32],
    buffer: &mut [u8],
) -> WeighedReply
    ensures { record { reply = result; workspace = area.new; buffer = buffer.new } ≡ weighed_of bytes.now targets.samples area.old buffer.old }
{
    let factored = hubqr::hubqr_whole(bytes, area, buffer);
    let weights = hubqr::modem::hubqr_weights(buffer, targets);
    WeighedReply {
        whole: factored,
        weights,
    }
}

// Whole, and the verdict on what the buffer then holds.
pub fn factor_and_verify(bytes: &[u8], area: &mut [i32], buffer: &mut [u8]) -> VerifiedReply
    ensures { record { reply = result; workspace = area.new; buffer = buffer.new } ≡ verified_of bytes.now area.old buffer.old }
{
    let done = hubqr::hubqr_whole(bytes, area, buffer);
    let verdict = hubqr::boards::hubqr_verify(bytes, buffer);
    VerifiedReply {
        whole: done,
        verdict,
    }
}

// The used count after a call: the one that it answers, and where it is refused the one that it was handed.
fn used_after(reply: LogReply, used: usize) -> usize
    ensures { result ≡ used_after_of reply.number reply.used used }
{
    if reply.number == 0 { reply.used } else { used }
}

// On one day: a sweep, an entry behind what stays, and the first entry of what is then used.
pub fn sweep_and_add(kind: u32, day: u32, body: &[u8], used: usize, buffer: &mut [u8]) -> DailyReply
    ensures { record { reply = result; buffer = buffer.new } ≡ daily_of kind day body.now used buffer.old }
{
    let swept = hubqr::log::hubqr_log_sweep(day, used, buffer);
    let end = used_after(swept, used);
    let added = hubqr::log::hubqr_log_add(kind, day, body, end, buffer);
    let last = used_after(added, end);
    let first = hubqr::log::hubqr_log_next(0, last, buffer);
    DailyReply {
        swept,
        added,
        first,
    }
}

// A sector is served at a new desk by the operator: shares for all sectors, the round from which on they count, a matrix handed in and the next one early,
// all turns that the sector's share has; and then Fetch by any role, which for the operator brings the next one in where the share was enough. Each call is
// handed the desk that the one before answered.
pub fn serve_sector(
    role: u32,
    shares: Shares,
    sector: u32,
    bytes: &[u8],
    next: &[u8],
    area: &mut [i32],
    buffer: &mut [u8],
) -> ServedReply
    ensures { record { reply = result; area = area.new; buffer = buffer.new } ≡ served_of role shares.shares sector bytes.now next.now area.old buffer.old }
{
    let new = hubqr::sectors::hubqr_desk_new();
    let set = hubqr::sectors::hubqr_desk_set_shares(OPERATOR, new, shares);
    let begun = hubqr::sectors::hubqr_desk_begin(OPERATOR, set.desk);
    let first = hubqr::sectors::hubqr_desk_hand_in(OPERATOR, begun.desk, sector, bytes, area);
    let early = hubqr::sectors::hubqr_desk_hand_in(OPERATOR, first.desk, sector, next, area);
    let run = hubqr::sectors::hubqr_desk_run(OPERATOR, early.desk, sector, 120, area);
    let fetch = hubqr::sectors::hubqr_desk_fetch(role, run.desk, sector, area, buffer);
    ServedReply {
        set,
        begun,
        first,
        early,
        run,
        fetch,
    }
}

// By any role: a round begins at any desk, and a sector has turns of it; and a viewer asks for its heard byte.
pub fn begin_and_run(
    role: u32,
    desk: Desk,
    sector: u32,
    request: u16,
    area: &mut [i32],
) -> RoundReply
    ensures { record { reply = result; area = area.new } ≡ round_of role desk sector request area.old }
{
    let begun = hubqr::sectors::hubqr_desk_begin(role, desk);
    let run = hubqr::sectors::hubqr_desk_run(role, begun.desk, sector, request, area);
    let heard = hubqr::sectors::hubqr_desk_heard(VIEWER, run.desk, sector);
    RoundReply { begun, run, heard }
}
