// The matrix record: its elements, the real matrix made of them, what the antennas heard, and the tests of a record by itself.

#![tactic(auto)]

ghost use Rattle.std.specs.Prelude.{◌≡◌, ◌<◌, ◌≤◌, IfOk};
ghost use Rattle.std.specs.Int.Signed.{mag};
ghost use Rattle.refusals.specs.Refusals.{header_test};
ghost use Rattle.refusals.specs.Outcomes.{outcome_number};
ghost use Rattle.matrix_record.specs.MatrixRecord.{matrix_tag, matrix_bytes, part_of, real_entry_of, antenna_heard_of, heard_byte_of, matrix_refusal};

use refusals::Refusal;
use words::signed16;

// The first byte of a matrix record, and its length. A tag is a byte of the format, and each crate of a record knows its own alone.
pub const TAG: u8 = 1;

pub const BYTES: usize = 257;

// An antenna is heard when its real part on the diagonal is above this. A loose plug leaves one or two.
const HEARD_ABOVE: i32 = 16;

// The real (q is 0) or imaginary (q is 1) part of element e. An enum would be no plainer: `part_of`, which the clauses cite, counts them 0 and 1.
#[tactic(auto, unfolding(crate::specs::MatrixRecord::part_of), using(integers::proofs::Magnitude::read_back))]
fn part(bytes: &[u8; BYTES], e: usize, q: usize) -> i32
    requires { (e < 64) × (q < 2) }
    ensures number { result ≡ part_of bytes.now e q }
    ensures small { mag result < 32768 }
{
    let at = 1 + 4 * e + 2 * q;
    signed16(bytes[at], bytes[at + 1])
}

// The entry of the real 16 by 16 matrix at row i, column j. Here and above, rows and columns are numbers with a bound: a type of 16 values would be no
// plainer, since callers count through them.
#[tactic(auto, unfolding(crate::specs::MatrixRecord::real_entry_of), using(integers::proofs::Magnitude::read_back))]
pub fn real_entry(bytes: &[u8; BYTES], i: usize, j: usize) -> i32
    requires { (i < 16) × (j < 16) }
    ensures entry { result ≡ real_entry_of bytes.now i j }
    ensures small { mag result ≤ 32768 }
{
    let e = i % 8 * 8 + j % 8;
    match (i < 8, j < 8) {
        (true, false) => -part(bytes, e, 1),
        (false, true) => part(bytes, e, 1),
        _ => part(bytes, e, 0),
    }
}

// Whether antenna k is heard, by the real part of element (k, k).
#[tactic(auto, unfolding(crate::specs::MatrixRecord::antenna_heard_of), using(integers::proofs::Magnitude::read_back))]
fn antenna_heard(bytes: &[u8; BYTES], k: usize) -> bool
    requires { k < 8 }
    ensures { result ≡ antenna_heard_of bytes.now k }
{
    part(bytes, 8 * k + k, 0) > HEARD_ABOVE
}

// The heard byte: bit k is set when antenna k is heard.
#[tactic(auto, unfolding(crate::specs::MatrixRecord::heard_below))]
pub fn heard_byte(bytes: &[u8; BYTES]) -> u8
    ensures { result ≡ heard_byte_of bytes.now }
{
    let mut heard: u8 = 0;
    for k in 0..8 {
        if antenna_heard(bytes, k) {
            heard += 1 << k;
        }
    }
    heard
}

// The record that the bytes are: the tag is tested, then the length.
pub fn check_header(bytes: &[u8]) -> Result<&[u8; BYTES], Refusal>
    ensures number { outcome_number result ≡ header_test matrix_tag matrix_bytes bytes.now }
    ensures same { IfOk result (λ checked. checked.now ≡ bytes.now) }
{
    refusals::check_header(bytes, TAG)
}

// The record that the bytes are: the tag is tested, then the length, then that an antenna is heard.
#[tactic(auto, unfolding(crate::specs::MatrixRecord::matrix_refusal), using(refusals::proofs::Outcomes::refused_first, refusals::proofs::Outcomes::passed_first))]
pub fn check_record(bytes: &[u8]) -> Result<&[u8; BYTES], Refusal>
    ensures number { outcome_number result ≡ matrix_refusal bytes.now }
    ensures same { IfOk result (λ checked. checked.now ≡ bytes.now) }
{
    let checked = check_header(bytes)?;
    if heard_byte(checked) == 0 {
        return Err(Refusal::NoneHeard);
    }
    Ok(checked)
}
