// The words that a record puts into the workspace: a matrix record those that loading makes, a result record those of its R and Q.
ghost use Rattle.std.specs.Prelude.{◌≡◌, ℕ, ◌<◌, ◌≤◌, ℤ, length};
ghost use Rattle.lists.specs.Lists.{filled};
ghost use Rattle.workspace.specs.Workspace.{workspace_words};
ghost use Rattle.workspace.specs.Loading.{loaded_word_of};
ghost use Rattle.workspace.specs.Reading.{read_word_of};

use cordic::Word;

// A record that has a word for each position of the workspace.
pub trait Filling {
    ghost word_of: { Self → ℕ → ℤ };

    fn word(&self, k: usize) -> i32
        requires { k < workspace_words }
        ensures { result ≡ word_of self.now k };
}

// A matrix record: the entry times 2^13, and beside it the identity, with 2^30 for one.
impl Filling for [u8; matrix_record::BYTES] {
    ghost word_of = { loaded_word_of };

    fn word(&self, k: usize) -> i32 {
        let i = k / 32;
        let j = k % 32;
        if j < 16 {
            matrix_record::real_entry(self, i, j) * 8192
        } else if j == i + 16 {
            Word::ONE
        } else {
            0
        }
    }
}

// A result record: R, and beside it Q transposed. Where j is 16 or more, `j % 16` is `j - 16`, and Read takes less time with it.
impl Filling for [u8; result_record::BYTES] {
    ghost word_of = { read_word_of };

    fn word(&self, k: usize) -> i32 {
        let i = k / 32;
        let j = k % 32;
        if j < 16 {
            result_record::r(self, i, j)
        } else {
            result_record::q(self, j % 16, i)
        }
    }
}

// Fills the workspace's words from a record, and leaves what is behind them.
pub fn fill<R: Filling>(bytes: &R, workspace: &mut [i32])
    requires { workspace_words ≤ length workspace.old }
    ensures { workspace.new ≡ filled workspace_words (R.word_of bytes.now) workspace.old }
{
    for k in 0..crate::WORDS {
        workspace[k] = bytes.word(k);
    }
}
