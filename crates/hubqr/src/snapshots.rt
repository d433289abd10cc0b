// The covariance of snapshots for C and Rust hosts: each makes of what the library answers the reply that a host reads.
ghost use Rattle.std.specs.Prelude.{◌≡◌};
ghost use Rattle.covariance.specs.Sums.{sums_none_of};
ghost use Rattle.covariance.specs.AddSnapshot.{add_of};
ghost use Rattle.covariance.specs.WriteMatrix.{WriteOutcome, write_of};

use covariance::add::AddReply;
use covariance::{Sample, Sums};
use refusals::reply_number;

// Eight samples, in a struct since C hands no array over by value.
#[repr(C)]
#[derive(Clone, Copy)]
pub struct Snapshot {
    pub samples: [Sample; 8],
}

pub fn hubqr_sums_none() -> Sums
    ensures { result ≡ sums_none_of }
{
    Sums::none()
}

pub fn hubqr_add_snapshot(snapshot: Snapshot, mut sums: Sums) -> AddReply
    ensures { result ≡ add_of snapshot.samples sums }
{
    let number = reply_number(sums.add(snapshot.samples));
    AddReply { number, sums }
}

pub fn hubqr_write_matrix(sums: Sums, buffer: &mut [u8]) -> u8
    ensures { record { number = result; buffer = buffer.new } ≡ write_of sums buffer.old }
{
    reply_number(sums.write_matrix(buffer))
}
