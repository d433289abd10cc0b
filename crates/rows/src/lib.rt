// A rotation in two rows of words, whatever type of word they are of. The micro-rotations are outermost and the columns inside, so that
// a compiler can work several columns at once.
//
// The rows hold the columns from the leading one on, the leading one first, and not each column at its own place. So the compiler's
// vectors of words begin where an array does and straddle no two cache lines.
//
// Two arrays and no struct of both: that was tried, and a rotation in 32-bit words took 11% more time. The part, `base` and `column` are
// no struct either, which would be no plainer: `column_at` and `written`, which the clauses cite, take the part as one list beside
// these numbers, and a struct would need one form for reads and one for stores.

#![tactic(auto)]

ghost use Rattle.std.specs.Prelude.{◌≡◌, ℕ, ◌<◌, ◌≤◌, ◌+◌, ◌-◌, ◌*◌, Bool, ℤ, pos, length, get_or};
ghost use Rattle.std.specs.Int.Signed.{lt_z, non_neg};
ghost use mir.Val.{bool_byte};
ghost use Rattle.cordic.specs.declared.Pair.{Pair};
ghost use Rattle.cordic.specs.Word.{scaled, saturate};
ghost use Rattle.cordic.specs.MicroRotation.{micro_rotation_of, micro_rotations, sign as sign_of, oriented as oriented_z, oriented_pair};
ghost use Rattle.rotation.specs.Column.{column_at, stored as stored_of};
ghost use Rattle.rotation.specs.Rotated.{rotated, saturations_of};
ghost use Rattle.rotation.specs.Stores.{written, leading_written, rows_written, counted, rows_counted};
ghost use Rattle.rows.specs.Lanes.{Both, words_at, Words32, lane, Lanes};

use cordic::Word;
use rotation::Saturations;

// A word of the two rows.
pub trait Lane: Copy {
    // The number that a word stands for.
    ghost number: { Self → ℤ };

    // The numbers that a word may have at any step, so that no sum wraps.
    ghost Holds: { ℤ → Type 0 };

    // The columns of the workspace that can be worked in such words.
    ghost Takes: { Pair → Type 0 };

    // A word of the workspace, negated where `sign` is negative.
    fn oriented(sign: i32, word: i32) -> Self
        requires { Holds word }
        ensures { number result ≡ oriented_z (lt_z sign (pos 0)) word };

    // Micro-rotation i of a column, in the direction of a word's sign: positive where that is 0 or more.
    fn micro_rotation(i: usize, direction: Self, u: Self, v: Self) -> (Self, Self)
        requires before { (i < 28) × Both Holds (record { u = number u; v = number v }) }
        requires after { Both Holds (micro_rotation_of i (non_neg (number direction)) (record { u = number u; v = number v })) }
        ensures { record { u = number result.0; v = number result.1 } ≡ micro_rotation_of i (non_neg (number direction)) (record { u = number u; v = number v }) };

    // The word scaled and saturated, as it is stored.
    fn stored(self) -> Word
        requires { Holds (number self) }
        ensures { result ≡ saturate (scaled (number self)) };

    // Whatever the directions, the words of a column that can be worked stay such through all 28 micro-rotations.
    ghost stays: { (p : Pair) → Words32 p → Takes p → (negate : Bool) (s : ℕ → Bool) (n : ℕ) → n ≤ 28 → Both Holds (micro_rotations s n (oriented_pair negate p.u p.v)) };
}

// The columns of the part from the leading one on, oriented by its upper word.
fn orient_columns<W: Lane>(
    part: &[i32],
    base: usize,
    column: usize,
    us: &mut [W; 32],
    vs: &mut [W; 32],
)
    requires column_bound { (column < 32) × (base + 32 ≤ length part.now) }
    requires by_index { (k : ℕ) → column ≤ k → k < 32 → W.Takes (words_at base part.now k) }
    ensures oriented { Lanes W.number (λ (j : ℕ). column_at (lt_z (get_or part.now column (pos 0)) (pos 0)) base part.now (column + j)) (32 - column) us.new vs.new }
    ensures in_range { (j : ℕ) → j < 32 - column → Words32 (words_at base part.now (column + j)) }
{
    let sign = part[column];
    for n in 0..32 - column {
        let x = part[column + n];
        let y = part[base + (column + n)];
        us[n] = W::oriented(sign, x);
        vs[n] = W::oriented(sign, y);
    }
}

// Micro-rotation i of the first `count` columns, in the direction of a word's sign.
fn micro_rotate_columns<W: Lane>(
    i: usize,
    direction: W,
    count: usize,
    us: &mut [W; 32],
    vs: &mut [W; 32],
)
    requires i_bound { (i < 28) × (count ≤ 32) }
    requires before { (j : ℕ) → j < count → Both W.Holds (lane W.number us.old vs.old j) }
    requires after { (j : ℕ) → j < count → Both W.Holds (micro_rotation_of i (non_neg (W.number direction)) (lane W.number us.old vs.old j)) }
    ensures { Lanes W.number (λ (j : ℕ). micro_rotation_of i (non_neg (W.number direction)) (lane W.number us.old vs.old j)) count us.new vs.new }
{
    for k in 0..count {
        let u = us[k];
        let v = vs[k];
        let (x, y) = W::micro_rotation(i, direction, u, v);
        us[k] = x;
        vs[k] = y;
    }
}

// The 28 micro-rotations of the first `count` columns, with the signs of the first, which is the leading one.
fn rotate_columns<W: Lane>(count: usize, us: &mut [W; 32], vs: &mut [W; 32])
    requires count_bound { (0 < count) × (count ≤ 32) }
    requires by_index { (j : ℕ) → j < count → (n : ℕ) → n ≤ 28 → Both W.Holds (micro_rotations (sign_of (lane W.number us.old vs.old 0)) n (lane W.number us.old vs.old j)) }
    ensures { Lanes W.number (λ (j : ℕ). micro_rotations (sign_of (lane W.number us.old vs.old 0)) 28 (lane W.number us.old vs.old j)) count us.new vs.new }
{
    for i in 0..Word::STEPS {
        let direction = vs[0];
        micro_rotate_columns(i, direction, count, us, vs);
    }
}

// Stores `count` columns from the one that is `from` columns after the leading one; answers their saturations.
fn store_columns<W: Lane>(
    part: &mut [i32],
    base: usize,
    column: usize,
    from: usize,
    count: usize,
    us: &[W; 32],
    vs: &[W; 32],
) -> u32
    requires count_bound { (column + from + count ≤ 32) × (base + 32 ≤ length part.old) }
    requires by_index { (j : ℕ) → j < 32 - column → Both W.Holds (lane W.number us.now vs.now j) }
    ensures words { part.new ≡ written (λ (k : ℕ). stored_of (lane W.number us.now vs.now (k - column))) base (column + from) count part.old }
    ensures saturations { result ≡ counted (λ (k : ℕ). stored_of (lane W.number us.now vs.now (k - column))) (column + from) count }
{
    let mut saturations: u32 = 0;
    for n in 0..count {
        let upper = us[from + n].stored();
        let lower = vs[from + n].stored();
        part[column + from + n] = upper.value;
        part[base + (column + from + n)] = lower.value;
        saturations += u32::from(upper.saturated) + u32::from(lower.saturated);
    }
    saturations
}

// Stores the leading column's words, the upper one scaled and saturated and the lower one 0; answers the saturations.
fn store_leading<W: Lane>(part: &mut [i32], base: usize, column: usize, u: W) -> u32
    requires { (column < 32) × (base + 32 ≤ length part.old) × W.Holds (W.number u) }
    ensures words { part.new ≡ leading_written (saturate (scaled (W.number u))) base column part.old }
    ensures saturations { result ≡ bool_byte (saturate (scaled (W.number u))).saturated }
{
    let upper = u.stored();
    part[column] = upper.value;
    part[base + column] = 0;
    u32::from(upper.saturated)
}

// Stores the columns from the leading one on, those of R and then those of Q; answers their saturations, which are told by side where
// the leading column is one of R.
fn store_rows<W: Lane>(
    part: &mut [i32],
    base: usize,
    column: usize,
    us: &[W; 32],
    vs: &[W; 32],
) -> Saturations
    requires column_bound { (column < 32) × (base + 32 ≤ length part.old) }
    requires by_index { (j : ℕ) → j < 32 - column → Both W.Holds (lane W.number us.now vs.now j) }
    ensures words { part.new ≡ rows_written (λ (k : ℕ). stored_of (lane W.number us.now vs.now (k - column))) base column part.old }
    ensures saturations { column < 16 → result ≡ rows_counted (λ (k : ℕ). stored_of (lane W.number us.now vs.now (k - column))) column }
{
    let lead = store_leading(part, base, column, us[0]);
    let side = (column + 1).max(16);
    let left = store_columns(part, base, column, 1, side - (column + 1), us, vs);
    let q = store_columns(part, base, column, side - column, 32 - side, us, vs);
    Saturations { r: lead + left, q }
}

// One rotation of the part that begins at the upper row, with two rows to work in: its leading column is `column`, and the lower row
// is `gap` rows on. The rows are lent: with a constant `ZERO` of `Lane` to make them of, the proof didn't close, since nothing bounds
// the size of a `W`, and only a caller with a word type in hand knows it.
pub fn rotate_in<W: Lane>(
    part: &mut [i32],
    column: usize,
    gap: usize,
    us: &mut [W; 32],
    vs: &mut [W; 32],
) -> Saturations
    requires column_bound { (column < 32) × (1 ≤ gap) × (gap * 32 + 32 ≤ length part.old) }
    requires by_index { (k : ℕ) → column ≤ k → k < 32 → W.Takes (words_at (gap * 32) part.old k) }
    ensures words { part.new ≡ rotated column gap part.old }
    ensures saturations { column < 16 → result ≡ saturations_of column gap part.old }
{
    let base = gap * 32;
    orient_columns(part, base, column, us, vs);
    rotate_columns(32 - column, us, vs);
    store_rows(part, base, column, us, vs)
}
