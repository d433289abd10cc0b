// The desk for eight sectors, for C and Rust hosts: each call answers the desk anew, with the outcome of the library's call as a reply.
ghost use Rattle.std.specs.Prelude.{◌≡◌};
ghost use Rattle.desk.specs.Desk.{new_desk};
ghost use Rattle.desk.specs.HandIn.{HandInOutcome, hand_in_of};
ghost use Rattle.desk.specs.Run.{DeskRunOutcome, desk_run_of};
ghost use Rattle.desk.specs.Fetch.{DeskFetchOutcome, desk_fetch_of};
ghost use Rattle.desk.specs.Heard.{desk_heard_of};
ghost use Rattle.desk.specs.Rounds.{begin_of};
ghost use Rattle.desk.specs.Shares.{set_shares_of};

use desk::hand_in::DeskLoadReply;
use desk::heard::DeskHeardReply;
use desk::run::DeskRunReply;
use desk::shares::Shares;
use desk::{Desk, DeskReply};

pub fn hubqr_desk_new() -> Desk
    ensures { result ≡ new_desk }
{
    Desk::new()
}

pub fn hubqr_desk_begin(role: u32, mut desk: Desk) -> DeskReply
    ensures { result ≡ begin_of role desk }
{
    let outcome = desk.begin(role);
    DeskReply::of(desk, outcome)
}

pub fn hubqr_desk_hand_in(
    role: u32,
    mut desk: Desk,
    sector: u32,
    bytes: &[u8],
    area: &mut [i32],
) -> DeskLoadReply
    ensures { record { reply = result; area = area.new } ≡ hand_in_of role desk sector bytes.now area.old }
{
    let outcome = desk.hand_in(role, sector, bytes, area);
    DeskLoadReply::of(desk, outcome)
}

pub fn hubqr_desk_run(
    role: u32,
    mut desk: Desk,
    sector: u32,
    request: u16,
    area: &mut [i32],
) -> DeskRunReply
    ensures { record { reply = result; area = area.new } ≡ desk_run_of role desk sector request area.old }
{
    let outcome = desk.run(role, sector, request, area);
    DeskRunReply::of(desk, outcome)
}

pub fn hubqr_desk_fetch(
    role: u32,
    mut desk: Desk,
    sector: u32,
    area: &mut [i32],
    buffer: &mut [u8],
) -> DeskReply
    ensures { record { reply = result; area = area.new; buffer = buffer.new } ≡ desk_fetch_of role desk sector area.old buffer.old }
{
    let outcome = desk.fetch(role, sector, area, buffer);
    DeskReply::of(desk, outcome)
}

pub fn hubqr_desk_heard(role: u32, desk: Desk, sector: u32) -> DeskHeardReply
    ensures { result ≡ desk_heard_of role desk sector }
{
    let outcome = desk.heard(role, sector);
    DeskHeardReply::of(desk, outcome)
}

pub fn hubqr_desk_set_shares(role: u32, mut desk: Desk, shares: Shares) -> DeskReply
    ensures { result ≡ set_shares_of role desk shares.shares }
{
    let outcome = desk.set_shares(role, shares);
    DeskReply::of(desk, outcome)
}
