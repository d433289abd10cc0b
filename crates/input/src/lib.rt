// A buffer filled from a reader, as the programs read their standard input.

#![tactic(auto)]

ghost use Rattle.std.specs.Prelude.{◌≡◌, ◌≤◌, length, take};
ghost use Rattle.std.specs.Io.KnownBytes.{Consumes};

use std::io::Read;

// Reads until the buffer is full, the input ends or a read fails, and answers how many bytes now stand at the start of the buffer: those that the
// input gave, in its order. `read_exact` tells no count where the input ends too soon, and `read_to_end` needs a heap.
pub fn read_full<R: Read>(input: &mut R, buffer: &mut [u8]) -> usize
    ensures within { result ≤ length buffer.new }
    ensures size { length buffer.new ≡ length buffer.old }
    ensures bytes { Consumes (R.remaining input.old) (R.remaining input.new) (take result buffer.new) }
{
    let mut done = 0;
    while done < buffer.len() {
        match input.read(&mut buffer[done..]) {
            Ok(count) if 0 < count => done += count,
            _ => return done,
        }
    }
    done
}

#[cfg(test)]
mod tests {
    use super::*;

    // Two pieces of five bytes in all: the first buffer takes a part of the second piece, the second buffer what is left.
    #[test]
    fn pieces_are_joined(rt: HostRuntime) {
        let mut input = b"ab".as_slice().chain(b"cde".as_slice());
        let mut buffer = [0; 4];
        assert_eq!(rt; read_full(&mut input, &mut buffer), 4);
        assert_eq!(rt; buffer.as_slice(), b"abcd".as_slice());
        assert_eq!(rt; read_full(&mut input, &mut buffer), 1);
        assert_eq!(rt; buffer.as_slice(), b"ebcd".as_slice());
    }
}
