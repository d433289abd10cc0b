// The schedule: the 120 rotations in the order in which they clear a column after another, each stage of a column pairing the rows that stand, first with
// second, third with fourth. Here is its table, as bytes, and the lookup of one rotation.

#![tactic(auto)]

ghost use Rattle.std.specs.Prelude.{◌≡◌, ◌<◌, map};
ghost use Rattle.std.specs.List.{concat};
ghost use Rattle.schedule.specs.Schedule.{rotation_count, schedule, triple, flat, rotation_at_of};

// A rotation (document 01's turn): its leading column and its two rows.
#[derive(Clone, Copy)]
pub struct Rotation {
    pub column: usize,
    pub upper: usize,
    pub lower: usize,
}

// How many rotations there are.
pub const COUNT: usize = 120;

// Column, upper row and lower row of each rotation. No column and no row passes 15, so that a byte holds it.
pub type Table = [[u8; 3]; COUNT];

static ROTATIONS: Table = [
    [0, 0, 1],
    [0, 2, 3],
    [0, 4, 5],
    [0, 6, 7],
    [0, 8, 9],
    [0, 10, 11],
    [0, 12, 13],
    [0, 14, 15],
    [0, 0, 2],
    [0, 4, 6],
    [0, 8, 10],
    [0, 12, 14],
    [0, 0, 4],
    [0, 8, 12],
    [0, 0, 8],
    [1, 1, 2],
    [1, 3, 4],
    [1, 5, 6],
    [1, 7, 8],
    [1, 9, 10],
    [1, 11, 12],
    [1, 13, 14],
    [1, 1, 3],
    [1, 5, 7],
    [1, 9, 11],
    [1, 13, 15],
    [1, 1, 5],
    [1, 9, 13],
    [1, 1, 9],
    [2, 2, 3],
    [2, 4, 5],
    [2, 6, 7],
    [2, 8, 9],
    [2, 10, 11],
    [2, 12, 13],
    [2, 14, 15],
    [2, 2, 4],
    [2, 6, 8],
    [2, 10, 12],
    [2, 2, 6],
    [2, 10, 14],
    [2, 2, 10],
    [3, 3, 4],
    [3, 5, 6],
    [3, 7, 8],
    [3, 9, 10],
    [3, 11, 12],
    [3, 13, 14],
    [3, 3, 5],
    [3, 7, 9],
    [3, 11, 13],
    [3, 3, 7],
    [3, 11, 15],
    [3, 3, 11],
    [4, 4, 5],
    [4, 6, 7],
    [4, 8, 9],
    [4, 10, 11],
    [4, 12, 13],
    [4, 14, 15],
    [4, 4, 6],
    [4, 8, 10],
    [4, 12, 14],
    [4, 4, 8],
    [4, 4, 12],
    [5, 5, 6],
    [5, 7, 8],
    [5, 9, 10],
    [5, 11, 12],
    [5, 13, 14],
    [5, 5, 7],
    [5, 9, 11],
    [5, 13, 15],
    [5, 5, 9],
    [5, 5, 13],
    [6, 6, 7],
    [6, 8, 9],
    [6, 10, 11],
    [6, 12, 13],
    [6, 14, 15],
    [6, 6, 8],
    [6, 10, 12],
    [6, 6, 10],
    [6, 6, 14],
    [7, 7, 8],
    [7, 9, 10],
    [7, 11, 12],
    [7, 13, 14],
    [7, 7, 9],
    [7, 11, 13],
    [7, 7, 11],
    [7, 7, 15],
    [8, 8, 9],
    [8, 10, 11],
    [8, 12, 13],
    [8, 14, 15],
    [8, 8, 10],
    [8, 12, 14],
    [8, 8, 12],
    [9, 9, 10],
    [9, 11, 12],
    [9, 13, 14],
    [9, 9, 11],
    [9, 13, 15],
    [9, 9, 13],
    [10, 10, 11],
    [10, 12, 13],
    [10, 14, 15],
    [10, 10, 12],
    [10, 10, 14],
    [11, 11, 12],
    [11, 13, 14],
    [11, 11, 13],
    [11, 11, 15],
    [12, 12, 13],
    [12, 14, 15],
    [12, 12, 14],
    [13, 13, 14],
    [13, 13, 15],
    [14, 14, 15],
];

// The table of the whole schedule.
pub fn table() -> &'static Table
    ensures rows { result.now ≡ map triple schedule }
    ensures numbers { concat result.now ≡ flat schedule }
{
    &ROTATIONS
}

// Rotation number n of the schedule, its bytes made as wide as an index.
#[tactic(auto, using(crate::proofs::Rows::row_at))]
pub fn rotation_at(n: usize) -> Rotation
    requires { n < rotation_count }
    ensures { result ≡ rotation_at_of n }
{
    let [column, upper, lower] = table()[n];
    Rotation {
        column: usize::from(column),
        upper: usize::from(upper),
        lower: usize::from(lower),
    }
}
