// The words of 32 bits, in which columns whose u² + v² is at most 2^60 + 2^44 can be rotated: their words fit 32 bits through all 28
// micro-rotations. A vector register holds twice as many of them as of 64-bit words, and the baseline x86-64 processor can shift them
// there, which it cannot with signed 64-bit words.

#![tactic(auto)]

ghost use Rattle.std.specs.Prelude.{◌≡◌, ◌^◌, ◌≤◌, ◌+◌, pos, length};
ghost use Rattle.std.specs.Int.Signed.{lt_z};
ghost use Rattle.integers.specs.Square.{square as square_of};
ghost use Rattle.cordic.specs.MicroRotation.{oriented as oriented_z};
ghost use Rattle.narrow.specs.Narrow.{Short, Bounded, norms_bounded_of, narrow_stays};

use cordic::Word;
use rows::Lane;

// The largest u² + v² of a column that the 32-bit form takes.
const NORM_BOUND: u64 = (1 << 60) + (1 << 44);

// The square of a word. The sum of two squares is 2^63 at most: it fits a u64, and not an i64.
fn square(w: i32) -> u64
    ensures { (result ≡ square_of w) × (result ≤ 2 ^ 62) }
{
    let x = i64::from(w);
    let y = x * x;
    y.unsigned_abs()
}

// Whether every column of the part from `column` on has a u² + v² within the bound. Types for the bounds of `column` and of the part's length would be no
// plainer: `norms_bounded_of` takes the part as one list beside these numbers (the head of `rows` says more).
pub fn norms_bounded(part: &[i32], base: usize, column: usize) -> bool
    requires { (column ≤ 32) × (base + 32 ≤ length part.now) }
    ensures { result ≡ norms_bounded_of base column part.now }
{
    for k in column..32 {
        let x = part[k];
        let y = part[base + k];
        let p = square(x);
        let q = square(y);
        let norm = p + q;
        if NORM_BOUND < norm {
            return false;
        }
    }
    true
}

// w, negated where `sign` is negative. A mask of 0 or -1 does it with no branch, so that the compiler can work several columns at
// once.
fn oriented_by(sign: i32, w: i32) -> i32
    requires { Short w }
    ensures { result ≡ oriented_z (lt_z sign (pos 0)) w }
{
    let mask = sign >> 31;
    (w ^ mask) - mask
}

// A struct of its own, since `Lane` is another crate's trait.
#[derive(Clone, Copy)]
pub struct Word32(pub i32);

impl Lane for Word32 {
    ghost number = { λ w. w.0 };

    ghost Holds = { Short };

    ghost Takes = { Bounded };

    fn oriented(sign: i32, word: i32) -> Word32 {
        Word32(oriented_by(sign, word))
    }

    fn micro_rotation(i: usize, direction: Word32, u: Word32, v: Word32) -> (Word32, Word32) {
        let a = oriented_by(direction.0, v.0 >> i);
        let b = oriented_by(direction.0, u.0 >> i);
        (Word32(u.0 + a), Word32(v.0 - b))
    }

    // The gain is below 2^30, so that a 32-bit word stays one. The compiler sees that the tests for saturation never hold, and drops them.
    fn stored(self) -> Word {
        Word::scale_saturate(i64::from(self.0))
    }

    ghost stays = { narrow_stays };
}
