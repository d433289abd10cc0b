// Sums of products of 32-bit words, which can pass 64 bits and are exact.
ghost use Rattle.std.specs.Prelude.{◌≡◌, ◌<◌, ◌≤◌, ◌^◌, pos, nat_abs, ◌-ℤ◌, ◌*ℤ◌};
ghost use Rattle.integers.specs.Within.{is_within};
ghost use Rattle.workspace.specs.Workspace.{word_in};
ghost use Rattle.accuracy.specs.Factorization.{gram, error_limit};

use workspace::WORDS;

// The limit, either way.
const LIMIT: u128 = 1 << 44;

// One, as the words of Q have it.
const ONE: i128 = 1 << 30;

// The sum of the products of columns a and b of a workspace.
pub fn column_products(words: &[i32; WORDS], a: usize, b: usize) -> i128
    requires { (a < 32) × (b < 32) }
    ensures number { result ≡ gram (word_in words.now) a b }
    ensures small { nat_abs result ≤ 2 ^ 66 }
{
    let mut sum = 0;
    for k in 0..16 {
        let product = i64::from(words[k * 32 + a]) * i64::from(words[k * 32 + b]);
        sum += i128::from(product);
    }
    sum
}

// Whether a sum lies within the limit of 2^30 times a word.
pub fn near(sum: i128, word: i32) -> bool
    requires { nat_abs sum ≤ 2 ^ 66 }
    ensures { result ≡ is_within (sum -ℤ pos (2 ^ 30) *ℤ word) error_limit }
{
    let error = sum - ONE * i128::from(word);
    error.unsigned_abs() <= LIMIT
}
