// What the program `qr` makes of its input, on slices: Whole, and the result record or the refusal record.

#![tactic(auto)]

ghost use Rattle.std.specs.Prelude.{◌≡◌, ◌++◌, ◌≤◌, length, drop};
ghost use Rattle.respond.specs.Response.{response};

// Puts the record that answers the input at the start of output, leaves the rest of output, and answers the record's length.
pub fn respond(input: &[u8], output: &mut [u8; result_record::BYTES]) -> usize
    ensures size { result ≡ length (response input.now) }
    ensures bytes { output.new ≡ response input.now ++ drop result output.old }
    ensures fits { result ≤ length output.new }
{
    let mut workspace = [0i32; workspace::WORDS];
    match engine::whole::whole(input, &mut workspace[..], &mut output[..]) {
        Ok(_) => result_record::BYTES,
        Err(refusal) => {
            let record = refusals::refusal_record(refusal.number());
            output[..2].copy_from_slice(&record);
            2
        }
    }
}
