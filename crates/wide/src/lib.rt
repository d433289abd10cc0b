// The words of 64 bits, in which any words of the workspace can be rotated.

#![tactic(auto)]

ghost use Rattle.wide.specs.Words.{Wide, AnyColumn, wide_stays};

use cordic::{Pair, Word};
use rows::Lane;

// A struct of its own, since `Lane` is another crate's trait.
#[derive(Clone, Copy)]
pub struct Word64(pub i64);

impl Lane for Word64 {
    ghost number = { λ w. w.0 };

    ghost Holds = { Wide };

    ghost Takes = { AnyColumn };

    fn oriented(sign: i32, word: i32) -> Word64 {
        Word64(cordic::oriented(sign < 0, word))
    }

    fn micro_rotation(i: usize, direction: Word64, u: Word64, v: Word64) -> (Word64, Word64) {
        let p = cordic::micro_rotation(i, 0 <= direction.0, Pair { u: u.0, v: v.0 });
        (Word64(p.u), Word64(p.v))
    }

    fn stored(self) -> Word {
        Word::scale_saturate(self.0)
    }

    ghost stays = { wide_stays };
}
