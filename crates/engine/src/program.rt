// The listing program's work for a C host: text in, listing text out.
ghost use Rattle.std.specs.Prelude.{◌≡◌, length as size};
ghost use Rattle.listing.specs.Program.{outcome};
ghost use Rattle.listing.specs.ProgramText.{list_answer, list_output, printed_report};

use crate::numbers::Numbers;
use listing::list_text;

#[unsafe(no_mangle)]
pub extern "C" fn rumbleog_list(
    input: &[u8],
    output: &mut [u8],
    line: &mut u64,
    length: &mut u64,
) -> u32
    ensures { let o = outcome input.now in
        let a = list_answer o (size output.old) in
        (result ≡ (printed_report a).number)
        × (line.new ≡ (printed_report a).place)
        × (length.new ≡ (printed_report a).count)
        × (output.new ≡ list_output a o output.old) }
{
    let answer = list_text(input, output);
    let told = Numbers::from(answer);
    *line = told.place;
    *length = told.count;
    told.number
}
