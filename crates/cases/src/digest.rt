// Digests of memory: its bytes are the digits of a number in base 1000003. Only the remainder by a prime is carried on, so that the number stays
// below 2^60 and a change of a single byte is always seen.

pub fn of_bytes(bytes: &[u8]) -> u64 {
    bytes.iter().fold(1, |digest, byte| append(digest, *byte))
}

// A word counts as its four bytes, high byte first.
pub fn of_words(words: &[i32]) -> u64 {
    words.iter().fold(1, |digest, word| {
        word.to_be_bytes().into_iter().fold(digest, append)
    })
}

fn append(digest: u64, byte: u8) -> u64 {
    digest % 1099511627689 * 1000003 + u64::from(byte)
}
