// The matrix records of the cases.
ghost use Rattle.std.specs.Prelude.{◌<◌};

use std::{array, fmt};

#[derive(Clone, Copy)]
pub enum Matrix {
    Full,
    Single,
    Lowest,
    Sixteen,
    Seventeen,
    OneHeard,
    Negative,
    Diagonal,
    Half,
}

// What the parts of the matrix are.
impl fmt::Display for Matrix {
    fn fmt<W: fmt::Write>(&self, f: &mut fmt::Formatter<W>) -> fmt::Result {
        f.write_str(match self {
            Matrix::Full => "A matrix with parts of all sizes",
            Matrix::Single => "A single element 1",
            Matrix::Lowest => "All parts -32768",
            Matrix::Sixteen => "Diagonal real parts 16, all other parts 32767",
            Matrix::Seventeen => "Diagonal real parts 17, all other parts 32767",
            Matrix::OneHeard => "Diagonal real parts 16 but antenna 5's 17, all other parts 32767",
            Matrix::Negative => "Diagonal real parts -17, all other parts 32767",
            Matrix::Diagonal => "Diagonal elements (32767, 0), all others 0",
            Matrix::Half => "Parts of all sizes for antennas 0 to 3, all others 0",
        })
    }
}

impl Matrix {
    pub fn record(self) -> [u8; 257] {
        array::from_fn(|i| if i == 0 { 1 } else { self.byte(i) })
    }

    // The byte at place i behind the kind byte.
    fn byte(self, i: usize) -> u8
        requires { i < 257 }
    {
        match self {
            Matrix::Full => full(i),
            Matrix::Single => u8::from(i == 2),
            Matrix::Lowest => 128 * u8::from(i % 2 == 1),
            Matrix::Sixteen => loud(i, 0, 16),
            Matrix::Seventeen => loud(i, 0, 17),
            Matrix::OneHeard if i == 182 => 17,
            Matrix::OneHeard => loud(i, 0, 16),
            Matrix::Negative => loud(i, 255, 239),
            Matrix::Diagonal => match i % 36 {
                1 => 127,
                2 => 255,
                _ => 0,
            },
            Matrix::Half if i < 129 && (i + 31) % 32 < 16 => full(i),
            Matrix::Half => 0,
        }
    }
}

// The byte at place i of the full matrix: they look random.
fn full(i: usize) -> u8
    requires { i < 257 }
{
    // Casts and no conversions by trait: a u64 has no From<usize>, and a TryFrom cannot fail here.
    ((i as u64 * 1103515245 + 12345) / 65536 % 256) as u8
}

// The byte at place i where each real part on the diagonal has these two bytes, and all other parts are 32767. One of the diagonal begins at every 36th
// byte from the first on.
fn loud(i: usize, high: u8, low: u8) -> u8 {
    match i % 36 {
        1 => high,
        2 => low,
        _ if i % 2 == 1 => 127,
        _ => 255,
    }
}
