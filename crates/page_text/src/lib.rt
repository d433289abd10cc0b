// What the program `page` makes of its input: R of a result record as text, or the number of a refused record.

#![tactic(auto)]

ghost use Rattle.std.specs.Prelude.{◌≡◌, ◌++◌, ◌<◌, ◌≤◌, length, drop};
ghost use Rattle.refusals.specs.Outcomes.{number_of};
ghost use Rattle.result_record.specs.ResultRecord.{record_r};
ghost use Rattle.page_text.specs.Decimal.{field};
ghost use Rattle.page_text.specs.Page.{line_of, page_of_r, refusal_line, page_of};

use refusals::Refusal;
use result_record::{BYTES, r};

// Columns of a word.
const COLUMNS: usize = 12;

// Characters of a line, its line feed among them, and of a page.
const LINE: usize = 193;

pub const PAGE: usize = 3088;

// Puts a word into its columns: blanks first, then its digits, the last one in the last column, and the sign before them. The library's `Buffer` would be
// shorter, but its text has to be copied, and a page of short words takes more than twice as long with it.
fn put_word(w: i32, columns: &mut [u8])
    requires { length columns.old ≡ 12 }
    ensures { columns.new ≡ field w }
{
    columns.copy_from_slice(&[b' '; COLUMNS]);
    let at = itoa::write_digits(u64::from(w.unsigned_abs()), columns, COLUMNS);
    if w < 0 {
        columns[at - 1] = b'-';
    }
}

// Puts row i of R into its line.
#[tactic(auto, unfolding(crate::specs::Page::line_of), using(lists::proofs::Joined::join_last))]
fn put_line(bytes: &[u8; BYTES], i: usize, line: &mut [u8])
    requires { (i < 16) × (length line.old ≡ 193) }
    ensures { line.new ≡ line_of (record_r bytes.now i) }
{
    for j in 0..16 {
        let at = COLUMNS * j;
        put_word(r(bytes, i, j), &mut line[at..at + COLUMNS]);
    }
    line[LINE - 1] = b'\n';
}

// Puts R, row by row.
#[tactic(auto, unfolding(crate::specs::Page::page_of_r), using(lists::proofs::Joined::join_done))]
fn put_page(bytes: &[u8; BYTES], page: &mut [u8; PAGE])
    ensures { page.new ≡ page_of_r (record_r bytes.now) }
{
    for i in 0..16 {
        let at = LINE * i;
        put_line(bytes, i, &mut page[at..at + LINE]);
    }
}

// Puts the number of a refusal at the start of output, and leaves the rest.
#[tactic(auto, unfolding(crate::specs::Page::refusal_line), using(lists::proofs::Joined::put_one))]
fn put_refusal(refusal: Refusal, output: &mut [u8; PAGE])
    ensures { output.new ≡ refusal_line (number_of refusal) ++ drop 13 output.old }
{
    let number = i32::from(refusal.number());
    put_word(number, &mut output[..COLUMNS]);
    output[COLUMNS] = b'\n';
}

// Puts the page of the input at the start of output, leaves the rest of output, and answers the page's length.
#[tactic(auto, using(crate::proofs::Page::page_accepted, crate::proofs::Page::page_of_refusal))]
pub fn page_text(input: &[u8], output: &mut [u8; PAGE]) -> usize
    ensures size { result ≡ length (page_of input.now) }
    ensures bytes { output.new ≡ page_of input.now ++ drop result output.old }
    ensures fits { result ≤ length output.new }
{
    match result_record::check_record(input) {
        Ok(record) => {
            put_page(record, output);
            PAGE
        }
        Err(refusal) => {
            put_refusal(refusal, output);
            COLUMNS + 1
        }
    }
}
