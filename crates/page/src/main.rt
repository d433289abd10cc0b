// Reads up to 2,050 bytes from standard input, in however many pieces they arrive, and writes the page of the result record, or the number of its
// refusal. One byte more than a result record is read, so that a longer input is refused and not cut.

#![tactic(auto)]

fn main(rt: HostRuntime) {
    let mut record = [0u8; 2050];
    let count = input::read_full(&mut rt.stdin(), &mut record);
    let mut page = [0u8; page_text::PAGE];
    let size = page_text::page_text(&record[..count], &mut page);
    if rt.write_all(&page[..size]).is_err() {
        let _ = rt.eprintln("page: the page could not be written");
    }
}
