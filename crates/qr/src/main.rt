// Reads up to 258 bytes from standard input, in however many pieces they arrive, and writes the result record or the refusal record. One
// byte more than a matrix record is read, so that a longer input is refused and not cut.

#![tactic(auto)]

fn main(rt: HostRuntime) {
    let mut matrix = [0u8; 258];
    let count = input::read_full(&mut rt.stdin(), &mut matrix);
    let mut record = [0u8; 2049];
    let size = respond::respond(&matrix[..count], &mut record);
    if rt.write_all(&record[..size]).is_err() {
        let _ = rt.eprintln("qr: the record could not be written");
    }
}
