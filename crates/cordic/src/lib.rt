// The engine's word, and the micro-rotation of a column's two words.

#![tactic(auto)]

ghost use Rattle.std.specs.Prelude.{◌≡◌, ◌+◌, ◌<◌, ◌≤◌, ◌^◌};
ghost use Rattle.std.specs.Int.Signed.{mag};
ghost use Rattle.cordic.specs.Word.{scaled, saturate};
ghost use Rattle.cordic.specs.Range.{InRange};
ghost use Rattle.cordic.specs.MicroRotation.{micro_rotation_of, oriented as oriented_z};

// A 32-bit word as it is stored, and whether saturation altered it. An Option or Result would be no plainer: a word that saturation
// altered is stored as any other, so both fields always mean something.
#[derive(Clone, Copy)]
pub struct Word {
    pub value: i32,
    pub saturated: bool,
}

// A column's two words during a rotation: the upper and the lower one.
#[derive(Clone, Copy)]
pub struct Pair {
    pub u: i64,
    pub v: i64,
}

// Both words of a column as a rotation stores them.
#[derive(Clone, Copy)]
pub struct Column {
    pub upper: Word,
    pub lower: Word,
}

// The constants belong to the word format: 28 micro-rotations, 2^30 for one, and the gain that undoes their growth.
impl Word {
    pub const STEPS: usize = 28;

    pub const ONE: i32 = 1073741824;

    pub const GAIN: i64 = 652032874;

    // The word of a sum after the micro-rotations: scaled by the gain, rounded, and saturated.
    #[tactic(auto, unfolding(crate::specs::Word::scaled, crate::specs::Word::saturate))]
    pub fn scale_saturate(w: i64) -> Word
        requires { mag w ≤ 2 ^ 33 + 2 ^ 32 }
        ensures { result ≡ saturate (scaled w) }
    {
        let scaled = (w * Word::GAIN + 536870912) >> 30;
        // Two tests and no `i32::try_from`: that was tried, and a rotation in 64-bit words took 4% more time.
        if scaled < i64::from(i32::MIN) {
            return Word {
                value: i32::MIN,
                saturated: true,
            };
        }
        if i64::from(i32::MAX) < scaled {
            return Word {
                value: i32::MAX,
                saturated: true,
            };
        }
        Word {
            value: scaled as i32,
            saturated: false,
        }
    }
}

// A word as a rotation takes it: negated where the upper leading word is negative. The flag picks the sign, as in the definition that the clause cites:
// a closure in its place would be no plainer.
#[tactic(auto, unfolding(crate::specs::MicroRotation::oriented))]
pub fn oriented(negate: bool, w: i32) -> i64
    ensures { result ≡ oriented_z negate w }
{
    let x = i64::from(w);
    if negate { -x } else { x }
}

// Micro-rotation i of a column, in the positive or the negative direction. A closure for the direction would be no plainer than two sums, and a type for i
// no plainer than its bound, since callers count through the steps.
pub fn micro_rotation(i: usize, positive: bool, p: Pair) -> Pair
    requires { (i < 28) × InRange (2 ^ 61) p }
    ensures { result ≡ micro_rotation_of i positive p }
{
    let u = p.u;
    let v = p.v;
    let a = v >> i;
    let b = u >> i;
    if positive {
        let x = u + a;
        let y = v - b;
        Pair { u: x, v: y }
    } else {
        let x = u - a;
        let y = v + b;
        Pair { u: x, v: y }
    }
}
