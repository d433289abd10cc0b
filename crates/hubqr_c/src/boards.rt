// The verdict on results that boards write by themselves, exported for C and Rust hosts: the call hands on that of `hubqr`.
ghost use Rattle.std.specs.Prelude.{◌≡◌};
ghost use Rattle.verify.specs.Verify.{verdict_of};

use verify::Verdict;

#[unsafe(no_mangle)]
pub extern "C" fn hubqr_verify(matrix: &[u8], res: &[u8]) -> Verdict
    ensures { result ≡ verdict_of matrix.now res.now }
{
    hubqr::boards::hubqr_verify(matrix, res)
}
