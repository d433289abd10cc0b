// Bytes and words: high byte first, and two's complement where they are signed. Each function is the library's method, and its clause says what it answers
// by sums of bytes, in which the laws of the records speak. One generic function over the three widths would be no plainer: no trait of `std` has these
// methods, one of this crate's own would have a body for each width again, and those of the kit's crate `num_traits` would be a dependency for three
// bodies of one line. `unsigned32` and `signed32` take four bytes and no array, since `uint32` and `int32`, which their clauses cite, do.

#![tactic(auto)]

ghost use Rattle.std.specs.Prelude.{◌≡◌, ◌<◌};
ghost use Rattle.std.specs.Int.Signed.{mag};
ghost use Rattle.words.specs.Words.{int16, int16_bytes_of, uint32, uint32_bytes_of, int32, word_bytes};

// The signed 16-bit number in two bytes.
pub fn signed16(high: u8, low: u8) -> i32
    ensures number { result ≡ int16 high low }
    ensures small { mag result < 32768 }
{
    i32::from(i16::from_be_bytes([high, low]))
}

// The two bytes of a signed 16-bit number, high byte first.
pub fn int16_bytes(z: i16) -> [u8; 2]
    ensures { result ≡ int16_bytes_of z }
{
    z.to_be_bytes()
}

// The unsigned 32-bit number in four bytes.
pub fn unsigned32(a: u8, b: u8, c: u8, d: u8) -> u32
    ensures { result ≡ uint32 a b c d }
{
    u32::from_be_bytes([a, b, c, d])
}

// The four bytes of an unsigned number, high byte first.
pub fn uint32_bytes(n: u32) -> [u8; 4]
    ensures { result ≡ uint32_bytes_of n }
{
    n.to_be_bytes()
}

// The signed 32-bit word in four bytes.
pub fn signed32(a: u8, b: u8, c: u8, d: u8) -> i32
    ensures { result ≡ int32 a b c d }
{
    i32::from_be_bytes([a, b, c, d])
}

// The four bytes of a word, high byte first.
pub fn word_bytes(w: i32) -> [u8; 4]
    ensures { result ≡ word_bytes w }
{
    w.to_be_bytes()
}
