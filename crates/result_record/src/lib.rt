// The result record: its words, as those of R and of Q, the test of R, and the tests of a record by itself.

#![tactic(auto)]

ghost use Rattle.std.specs.Prelude.{◌≡◌, ◌<◌, IfOk};
ghost use Rattle.lists.specs.Lists.{all_below};
ghost use Rattle.refusals.specs.Refusals.{header_test};
ghost use Rattle.refusals.specs.Outcomes.{outcome_number};
ghost use Rattle.result_record.specs.ResultRecord.{result_tag, result_bytes, record_word, record_r, record_q, is_finished_at, is_finished, record_refusal_of};

use refusals::Refusal;
use words::signed32;

// The first byte of a result record, and its length. A tag is a byte of the format, and each crate of a record knows its own alone.
pub const TAG: u8 = 2;

pub const BYTES: usize = 2049;

// Word m of a record.
#[tactic(auto, unfolding(crate::specs::ResultRecord::record_word), using(integers::proofs::Magnitude::read_back))]
fn word(bytes: &[u8; BYTES], m: usize) -> i32
    requires { m < 512 }
    ensures { result ≡ record_word bytes.now m }
{
    let at = 1 + 4 * m;
    signed32(bytes[at], bytes[at + 1], bytes[at + 2], bytes[at + 3])
}

// Word (i, j) of its R. Here and above, rows and columns are numbers with a bound: a type of 16 values would be no plainer, since callers count through them.
#[tactic(auto, unfolding(crate::specs::ResultRecord::record_r), using(integers::proofs::Magnitude::read_back))]
pub fn r(bytes: &[u8; BYTES], i: usize, j: usize) -> i32
    requires { (i < 16) × (j < 16) }
    ensures { result ≡ record_r bytes.now i j }
{
    word(bytes, i * 16 + j)
}

// Word (i, j) of its Q. The record has Q transposed.
#[tactic(auto, unfolding(crate::specs::ResultRecord::record_q), using(integers::proofs::Magnitude::read_back))]
pub fn q(bytes: &[u8; BYTES], i: usize, j: usize) -> i32
    requires { (i < 16) × (j < 16) }
    ensures { result ≡ record_q bytes.now i j }
{
    word(bytes, 256 + j * 16 + i)
}

// Whether a word may stand at row i, column j of a finished R: under the diagonal 0 alone, and on it, but in the last row, none below 0.
#[tactic(auto, unfolding(crate::specs::ResultRecord::is_finished_at), using(integers::proofs::Magnitude::nonneg_test, integers::proofs::Magnitude::zero_bits))]
pub fn finished_at(i: usize, j: usize, w: i32) -> bool
    ensures { result ≡ is_finished_at i j w }
{
    if j < i {
        w == 0
    } else if i == j && i < 15 {
        0 <= w
    } else {
        true
    }
}

// Whether the words of row i of a record's R may stand there. After the diagonal any may.
fn row_finished(bytes: &[u8; BYTES], i: usize) -> bool
    requires { i < 16 }
    ensures { result ≡ all_below 16 (λ j. is_finished_at i j (record_r bytes.now i j)) }
{
    for j in 0..i {
        if r(bytes, i, j) != 0 {
            return false;
        }
    }
    let w = r(bytes, i, i);
    finished_at(i, i, w)
}

// Whether the R of a record is a finished one.
pub fn record_finished(bytes: &[u8; BYTES]) -> bool
    ensures { result ≡ is_finished (record_r bytes.now) }
{
    for i in 0..16 {
        if !row_finished(bytes, i) {
            return false;
        }
    }
    true
}

// The record that the bytes are: the tag is tested, then the length.
pub fn check_header(bytes: &[u8]) -> Result<&[u8; BYTES], Refusal>
    ensures number { outcome_number result ≡ header_test result_tag result_bytes bytes.now }
    ensures same { IfOk result (λ checked. checked.now ≡ bytes.now) }
{
    refusals::check_header(bytes, TAG)
}

// The record that the bytes are: the tag is tested, then the length, then that R is upper triangular, with no negative word among the first 15 of its
// diagonal.
#[tactic(auto, unfolding(crate::specs::ResultRecord::record_refusal_of), using(refusals::proofs::Outcomes::refused_first, refusals::proofs::Outcomes::passed_first))]
pub fn check_record(bytes: &[u8]) -> Result<&[u8; BYTES], Refusal>
    ensures number { outcome_number result ≡ record_refusal_of bytes.now }
    ensures same { IfOk result (λ checked. checked.now ≡ bytes.now) }
{
    let checked = check_header(bytes)?;
    if !record_finished(checked) {
        return Err(Refusal::NotTriangular);
    }
    Ok(checked)
}
