// The result record of a workspace: whether one can be written, and the writing.
ghost use Rattle.std.specs.Prelude.{◌≡◌, ◌<◌, ◌≤◌, length};
ghost use Rattle.lists.specs.Lists.{filled};
ghost use Rattle.result_record.specs.ResultRecord.{result_bytes, result_byte, is_finished};
ghost use Rattle.workspace.specs.Workspace.{workspace_words, R, Q};
ghost use Rattle.workspace.specs.Places.{place_of};

use words::word_bytes;

// Whether the workspace's R is a finished one. One function for it and for a record's `record_finished` would be no plainer: a workspace has rows of 32 words,
// and is a slice, for which no trait can say that it is long enough.
pub fn finished(workspace: &[i32]) -> bool
    requires { workspace_words ≤ length workspace.now }
    ensures { result ≡ is_finished (R workspace.now) }
{
    for k in 0..256 {
        let i = k / 16;
        let j = k % 16;
        let at = i * 32 + j;
        let w = workspace[at];
        if !result_record::finished_at(i, j, w) {
            return false;
        }
    }
    true
}

// The position in the workspace of the record's word m.
fn place(m: usize) -> usize
    requires { m < workspace_words }
    ensures { result ≡ place_of m }
{
    m % 256 / 16 * 32 + m / 256 * 16 + m % 16
}

// Writes the bytes of the record, word by word.
pub fn write(workspace: &[i32], buffer: &mut [u8])
    requires { (workspace_words ≤ length workspace.now) × (result_bytes ≤ length buffer.old) }
    ensures { buffer.new ≡ filled result_bytes (result_byte (R workspace.now) (Q workspace.now)) buffer.old }
{
    buffer[0] = result_record::TAG;
    for m in 0..crate::WORDS {
        let at = place(m);
        let w = workspace[at];
        let p = 1 + 4 * m;
        buffer[p..p + 4].copy_from_slice(&word_bytes(w));
    }
}
