// The desk for eight sectors, exported for C and Rust hosts: each call hands on that of `hubqr`.
ghost use Rattle.std.specs.Prelude.{◌≡◌};
ghost use Rattle.desk.specs.Desk.{new_desk};
ghost use Rattle.desk.specs.HandIn.{HandInOutcome, hand_in_of};
ghost use Rattle.desk.specs.Run.{DeskRunOutcome, desk_run_of};
ghost use Rattle.desk.specs.Fetch.{DeskFetchOutcome, desk_fetch_of};
ghost use Rattle.desk.specs.Heard.{desk_heard_of};
ghost use Rattle.desk.specs.Rounds.{begin_of};
ghost use Rattle.desk.specs.Shares.{set_shares_of};

use desk::hand_in::DeskLoadReply;
use desk::heard::DeskHeardReply;
use desk::run::DeskRunReply;
use desk::shares::Shares;
use desk::{Desk, DeskReply};

#[unsafe(no_mangle)]
pub extern "C" fn hubqr_desk_new() -> Desk
    ensures { result ≡ new_desk }
{
    hubqr::sectors::hubqr_desk_new()
}

#[unsafe(no_mangle)]
pub extern "C" fn hubqr_desk_begin(role: u32, desk: Desk) -> DeskReply
    ensures { result ≡ begin_of role desk }
{
    hubqr::sectors::hubqr_desk_begin(role, desk)
}

#[unsafe(no_mangle)]
pub extern "C" fn hubqr_desk_hand_in(
    role: u32,
    desk: Desk,
    sector: u32,
    bytes: &[u8],
    area: &mut [i32],
) -> DeskLoadReply
    ensures { record { reply = result; area = area.new } ≡ hand_in_of role desk sector bytes.now area.old }
{
    hubqr::sectors::hubqr_desk_hand_in(role, desk, sector, bytes, area)
}

#[unsafe(no_mangle)]
pub extern "C" fn hubqr_desk_run(
    role: u32,
    desk: Desk,
    sector: u32,
    request: u16,
    area: &mut [i32],
) -> DeskRunReply
    ensures { record { reply = result; area = area.new } ≡ desk_run_of role desk sector request area.old }
{
    hubqr::sectors::hubqr_desk_run(role, desk, sector, request, area)
}

#[unsafe(no_mangle)]
pub extern "C" fn hubqr_desk_fetch(
    role: u32,
    desk: Desk,
    sector: u32,
    area: &mut [i32],
    buffer: &mut [u8],
) -> DeskReply
    ensures { record { reply = result; area = area.new; buffer = buffer.new } ≡ desk_fetch_of role desk sector area.old buffer.old }
{
    hubqr::sectors::hubqr_desk_fetch(role, desk, sector, area, buffer)
}

#[unsafe(no_mangle)]
pub extern "C" fn hubqr_desk_heard(role: u32, desk: Desk, sector: u32) -> DeskHeardReply
    ensures { result ≡ desk_heard_of role desk sector }
{
    hubqr::sectors::hubqr_desk_heard(role, desk, sector)
}

#[unsafe(no_mangle)]
pub extern "C" fn hubqr_desk_set_shares(role: u32, desk: Desk, shares: Shares) -> DeskReply
    ensures { result ≡ set_shares_of role desk shares.shares }
{
    hubqr::sectors::hubqr_desk_set_shares(role, desk, shares)
}
