// One rotation: what it counts, and what comes of a turn. Their definitions stand in specs/; the crate `rows` makes a rotation, in the
// words of `wide` or of `narrow`, and `givens` a turn.

#![tactic(auto)]

ghost use Rattle.std.specs.Prelude.{◌≡◌};
ghost use Rattle.rotation.specs.Saturations.{no_saturations, added, CountOf};

// What a rotation counts, or several together: the words that saturation altered in the columns of R, 0 to 15, and in those of Q,
// 16 to 31.
#[derive(Clone, Copy)]
pub struct Saturations {
    pub r: u32,
    pub q: u32,
}

impl Saturations {
    pub fn none() -> Saturations
        ensures { result ≡ no_saturations }
    {
        Saturations { r: 0, q: 0 }
    }

    // What both counted. The bounds are those of one rotation after at most 119 others, so that no sum wraps.
    #[tactic(auto, unfolding(crate::specs::Saturations::added))]
    pub fn plus(self, other: Saturations) -> Saturations
        requires { CountOf 119 self × CountOf 1 other }
        ensures { result ≡ added self other }
    {
        Saturations {
            r: self.r + other.r,
            q: self.q + other.q,
        }
    }
}

// What comes of a turn, or of several together, besides the words: how many were truly made, since a clear one is skipped, and what
// they counted.
#[derive(Clone, Copy)]
pub struct Tally {
    pub made: u32,
    pub saturations: Saturations,
}
