// The verdict on results that boards write by themselves, for C and Rust hosts: the call makes of what the library answers the
// reply that a host reads.
ghost use Rattle.std.specs.Prelude.{◌≡◌};
ghost use Rattle.verify.specs.Verify.{verdict_of};

use verify::Verdict;

pub fn hubqr_verify(matrix: &[u8], res: &[u8]) -> Verdict
    ensures { result ≡ verdict_of matrix.now res.now }
{
    verify::verify(matrix, res).into()
}
