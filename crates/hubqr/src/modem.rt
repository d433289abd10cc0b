// The weights for the modem, for C and Rust hosts: the call makes of what the library answers the reply that a host reads.
ghost use Rattle.std.specs.Prelude.{◌≡◌};
ghost use Rattle.weights.specs.Weights.{weights_of};

use crate::snapshots::Snapshot;
use weights::WeightsReply;

pub fn hubqr_weights(bytes: &[u8], targets: Snapshot) -> WeightsReply
    ensures { result ≡ weights_of bytes.now targets.samples }
{
    weights::weights(bytes, targets.samples).into()
}
