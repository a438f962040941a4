// The program `look_up` on a combined list: files of the working folder in, a line for each pair and the record groups read, or `refused=` and
// the number, out. Between reading and writing one function makes all that is printed: `look_up_program`.
//
// A file longer than 65,536 bytes is refused with 2. An absent combined.kv or places.kv is an empty text. A file that is there and can't be read
// gets a line on standard error, and nothing is printed.
#![tactic(auto)]

ghost use Rattle.std.specs.Prelude.{◌≤◌, length, ◌≡◌};
ghost use Rattle.answers.specs.Answered.{row_of};
ghost use Rattle.answers.specs.Options.{option_of};
ghost use Rattle.definitions.specs.Answers.{look_up_files, printed_looked_up};
ghost use Rattle.definitions.specs.Checked.{refused};
ghost use Rattle.files.specs.FileTexts.{read_text};
ghost use Rattle.files.specs.Printing.{Printed};
ghost use Rattle.kv_write.specs.Laid.{Laid};
ghost use Rattle.list_programs.specs.FoundLines.{answer_lines, found_lines, most_bytes, record_option};

use answers::Refusal;
use files::{FileRead, is_failed, is_too_long, read_file, text};
use std::rt::Files;

// The number of a record, missing for 4294967295.
fn record_number(number: u32) -> Option<u32>
    ensures { option_of result ≡ record_option number }
{
    if number == 4294967295 {
        return None;
    }
    Some(number)
}

// Lays a line `record` for each number over the start of a buffer, as far as they fit. The answer is where they end.
fn put_records(numbers: &[u32], out: &mut [u8]) -> usize
    requires { length (answer_lines numbers.now) ≤ most_bytes }
    ensures { Laid out.old 0 (answer_lines numbers.now) out.new result }
{
    let mut at = 0;
    for n in numbers {
        at = kv_write::put_optional_number_line(out, at, b"record=", record_number(*n));
    }
    at
}

// Makes what `look_up` prints of these numbers, and a line `groups` behind them. The answer is how many bytes it has.
fn put_found(numbers: &[u32], groups: u32, list: &mut [u8; 65536]) -> usize
    requires { length (answer_lines numbers.now) ≤ most_bytes }
    ensures { Printed (found_lines numbers.now groups) list.old list.new result }
{
    let at = put_records(numbers, list);
    kv_write::put_number_line(list, at, b"groups=", groups)
}

// The same for a refusal.
fn put_row(refusal: Refusal, list: &mut [u8; 65536]) -> usize
    ensures { Printed (printed_looked_up (refused (row_of refusal))) list.old list.new result }
{
    files::put_refusal(list, refusal.row())
}

// What `look_up` prints for the files that were read, made in the list's buffer. The answer is how many bytes it has.
pub fn look_up_program(
    of_combined: FileRead,
    combined: &[u8],
    of_places: FileRead,
    places: &[u8],
    list: &mut [u8; 65536],
) -> usize
    ensures { Printed
        (printed_looked_up (look_up_files (read_text of_combined combined.now) (read_text of_places places.now)))
        list.old list.new result }
{
    if is_too_long(of_combined) {
        return put_row(Refusal::Size, list);
    }
    if is_too_long(of_places) {
        return put_row(Refusal::Size, list);
    }
    let mut found = [0u32; 1024];
    let answer = position_lookup::look_up(
        text(of_combined, combined),
        text(of_places, places),
        &mut found,
    );
    match answer {
        Ok(counts) => put_found(&found[..counts.pairs], counts.groups, list),
        Err(refusal) => put_row(refusal, list),
    }
}

// The program on files with these names.
pub fn look_up_named<R: Files + Print + Eprint>(rt: &R, combined_name: &[u8], places_name: &[u8]) {
    let mut combined = [0u8; 65537];
    let mut places = [0u8; 65537];
    let mut list = [0u8; 65536];
    let of_combined = read_file(rt, combined_name, &mut combined);
    let of_places = read_file(rt, places_name, &mut places);
    if is_failed(of_combined) || is_failed(of_places) {
        return;
    }
    let count = look_up_program(of_combined, &combined, of_places, &places, &mut list);
    files::print_first(rt, &list, count);
}

// Looks the pairs of places.kv up in combined.kv, a combined list.
pub fn run_look_up<R: Files + Print + Eprint>(rt: &R) {
    look_up_named(rt, b"combined.kv", b"places.kv");
}
