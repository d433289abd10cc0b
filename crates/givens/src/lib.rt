// One turn of the part of the workspace that begins at its upper row: a rotation, or nothing where it is already clear.

#![tactic(auto)]

ghost use Rattle.std.specs.Prelude.{◌≡◌, ◌<◌, ◌≤◌, ◌+◌, ◌*◌, length};
ghost use Rattle.rotation.specs.Turn.{is_clear_of, turned, turn_saturations, turn_made};

use narrow::Word32;
use rotation::{Saturations, Tally};
use wide::Word64;

// Whether the turn is clear: its lower leading word is 0 and its upper one 0 or more.
fn is_clear(part: &[i32], column: usize, gap: usize) -> bool
    requires { (column < 16) × (gap * 32 + 32 ≤ length part.now) }
    ensures { result ≡ is_clear_of column gap part.now }
{
    let upper = part[column];
    let lower = part[gap * 32 + column];
    lower == 0 && 0 <= upper
}

// One turn of the part that begins at the upper row: its leading column is `column`, and the lower row is `gap` rows on. Answers
// what it counts, and whether it is made. A clear one costs this test and no more. Columns that are short enough are worked in 32-bit
// words, where no word saturates, and any others in 64-bit words. Both come to the same definition. Types for the bounds of `column` and of the part's
// length would be no plainer: `turned` and `is_clear_of` take the part as one list beside these numbers (the head of `rows` says more).
#[tactic(auto, unfolding(rotation::specs::Turn::turned, rotation::specs::Turn::turn_saturations, rotation::specs::Turn::turn_made))]
pub fn rotate(part: &mut [i32], column: usize, gap: usize) -> Tally
    requires { (column < 16) × (1 ≤ gap) × (gap * 32 + 32 ≤ length part.old) }
    ensures words { part.new ≡ turned column gap part.old }
    ensures saturations { result.saturations ≡ turn_saturations column gap part.old }
    ensures made { result.made ≡ turn_made column gap part.old }
{
    if is_clear(part, column, gap) {
        let saturations = Saturations::none();
        return Tally {
            made: 0,
            saturations,
        };
    }
    let saturations = if narrow::norms_bounded(part, gap * 32, column) {
        let mut us = [Word32(0); 32];
        let mut vs = [Word32(0); 32];
        rows::rotate_in::<Word32>(part, column, gap, &mut us, &mut vs)
    } else {
        let mut us = [Word64(0); 32];
        let mut vs = [Word64(0); 32];
        rows::rotate_in::<Word64>(part, column, gap, &mut us, &mut vs)
    };
    Tally {
        made: 1,
        saturations,
    }
}
