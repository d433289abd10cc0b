// The weights for the modem, exported for C and Rust hosts: the call hands on that of `hubqr`.
ghost use Rattle.std.specs.Prelude.{◌≡◌};
ghost use Rattle.weights.specs.Weights.{weights_of};

use hubqr::snapshots::Snapshot;
use weights::WeightsReply;

#[unsafe(no_mangle)]
pub extern "C" fn hubqr_weights(bytes: &[u8], targets: Snapshot) -> WeightsReply
    ensures { result ≡ weights_of bytes.now targets.samples }
{
    hubqr::modem::hubqr_weights(bytes, targets)
}
