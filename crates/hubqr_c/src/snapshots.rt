// The covariance of snapshots, exported for C and Rust hosts: each call hands on that of `hubqr`.
ghost use Rattle.std.specs.Prelude.{◌≡◌};
ghost use Rattle.covariance.specs.Sums.{sums_none_of};
ghost use Rattle.covariance.specs.AddSnapshot.{add_of};
ghost use Rattle.covariance.specs.WriteMatrix.{WriteOutcome, write_of};

use covariance::Sums;
use covariance::add::AddReply;
use hubqr::snapshots::Snapshot;

#[unsafe(no_mangle)]
pub extern "C" fn hubqr_sums_none() -> Sums
    ensures { result ≡ sums_none_of }
{
    hubqr::snapshots::hubqr_sums_none()
}

#[unsafe(no_mangle)]
pub extern "C" fn hubqr_add_snapshot(snapshot: Snapshot, sums: Sums) -> AddReply
    ensures { result ≡ add_of snapshot.samples sums }
{
    hubqr::snapshots::hubqr_add_snapshot(snapshot, sums)
}

#[unsafe(no_mangle)]
pub extern "C" fn hubqr_write_matrix(sums: Sums, buffer: &mut [u8]) -> u8
    ensures { record { number = result; buffer = buffer.new } ≡ write_of sums buffer.old }
{
    hubqr::snapshots::hubqr_write_matrix(sums, buffer)
}
