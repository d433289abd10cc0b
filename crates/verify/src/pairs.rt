// All pairs. The words of a result stand as Read puts them, R in columns 0 to 15 and Q transposed in columns 16 to 31. So Q's row i is column 16 + i, and its
// products with the 32 columns are row i of Q times R and of Q times Q transposed: 2^30 times row i of the words that Load makes of the matrix, where they
// are what they should be.
ghost use Rattle.std.specs.Prelude.{◌≡◌, ◌<◌};
ghost use Rattle.lists.specs.Lists.{all_below};
ghost use Rattle.verify.specs.Sums.{is_near};

use crate::sums::{column_products, near};
use workspace::WORDS;

// Whether pair number k, row k / 32 and column k % 32, is near.
fn pair_near(words: &[i32; WORDS], loaded: &[i32; WORDS], k: usize) -> bool
    requires { k < 512 }
    ensures { result ≡ is_near words.now loaded.now k }
{
    let sum = column_products(words, 16 + k / 32, k % 32);
    let word = loaded[k];
    near(sum, word)
}

// Whether all are.
pub fn all_near(words: &[i32; WORDS], loaded: &[i32; WORDS]) -> bool
    ensures { result ≡ all_below 512 (is_near words.now loaded.now) }
{
    for k in 0..WORDS {
        if !pair_near(words, loaded, k) {
            return false;
        }
    }
    true
}
