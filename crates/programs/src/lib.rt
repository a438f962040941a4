// The programs `combine`, `looks` and `call`: files of the working folder in, a list, a figure or `refused=` and the number out. Between
// reading and writing one function makes all that is printed: `combine_program`, `looks_program` and `call_program`.
//
// A file longer than 65,536 bytes is refused with 2. An absent cohort.kv, contig.kv or combined.kv is an empty text; an absent clip.kv or
// reference.kv is not lent. A file that is there and can't be read gets a line on standard error, and nothing is printed. The exit
// status is 0 all the same.
#![tactic(auto)]

ghost use Rattle.std.specs.Prelude.{◌≡◌, false};
ghost use Rattle.answers.specs.Answered.{Answered, checked_of};
ghost use Rattle.definitions.specs.Answers.{called_file, printed_answer, printed_looks};
ghost use Rattle.files.specs.FileTexts.{read_text};
ghost use Rattle.files.specs.Printing.{Printed};
ghost use Rattle.programs.specs.Programs.{CombinePrinted, ContigAsked, FilesCombined, FilesLooked, LooksPrinted, TextsLooked, any_too_long};

use answers::Refusal;
use files::{FileRead, is_failed, is_text, is_too_long, read_file, text};
use kv_text::Part;
use std::rt::Files;

// ---- combine

// Whether one of three files is too long.
fn any_too_long(first: FileRead, second: FileRead, third: FileRead) -> bool
    ensures { result ≡ any_too_long first second third }
{
    is_too_long(first) || is_too_long(second) || is_too_long(third)
}

// The answer for the files that were read: the length of each comes before all else.
fn combine_files<'a>(
    of_cohort: FileRead,
    cohort: &'a [u8],
    of_clip: FileRead,
    clip: &[u8],
    of_reference: FileRead,
    reference: &'a [u8],
    scratch: &mut [u64; 8192],
    list: &mut [u8; 65536],
) -> Result<usize, Refusal>
    ensures { FilesCombined
        (read_text of_cohort cohort.now) (read_text of_clip clip.now) (read_text of_reference reference.now)
        scratch.old scratch.new list.old list.new result }
{
    if any_too_long(of_cohort, of_clip, of_reference) {
        slices::clear(scratch, 0);
        return Err(Refusal::Size);
    }
    combine_gvcfs::combine(
        text(of_cohort, cohort),
        is_text(of_clip),
        text(of_clip, clip),
        is_text(of_reference),
        text(of_reference, reference),
        scratch,
        list,
    )
}

// What `combine` prints for the files that were read, made in the list's buffer. The answer is how many bytes it has.
pub fn combine_program<'a>(
    of_cohort: FileRead,
    cohort: &'a [u8],
    of_clip: FileRead,
    clip: &[u8],
    of_reference: FileRead,
    reference: &'a [u8],
    scratch: &mut [u64; 8192],
    list: &mut [u8; 65536],
) -> usize
    ensures { CombinePrinted
        (read_text of_cohort cohort.now) (read_text of_clip clip.now) (read_text of_reference reference.now)
        scratch.old scratch.new list.old list.new result }
{
    let outcome = combine_files(
        of_cohort,
        cohort,
        of_clip,
        clip,
        of_reference,
        reference,
        scratch,
        list,
    );
    files::put_answer(outcome, list)
}

// The program on files with these names.
pub fn combine_named<R: Files + Print + Eprint>(
    rt: &R,
    cohort_name: &[u8],
    clip_name: &[u8],
    reference_name: &[u8],
) {
    let mut cohort = [0u8; 65537];
    let mut clip = [0u8; 65537];
    let mut reference = [0u8; 65537];
    let mut scratch = [0u64; 8192];
    let mut list = [0u8; 65536];
    let of_cohort = read_file(rt, cohort_name, &mut cohort);
    let of_clip = read_file(rt, clip_name, &mut clip);
    let of_reference = read_file(rt, reference_name, &mut reference);
    if is_failed(of_cohort) || is_failed(of_clip) || is_failed(of_reference) {
        return;
    }
    let count = combine_program(
        of_cohort,
        &cohort,
        of_clip,
        &clip,
        of_reference,
        &reference,
        &mut scratch,
        &mut list,
    );
    files::print_first(rt, &list, count);
}

// Combines cohort.kv with clip.kv and reference.kv.
pub fn run_combine<R: Files + Print + Eprint>(rt: &R) {
    combine_named(rt, b"cohort.kv", b"clip.kv", b"reference.kv");
}

// ---- looks

// The contig that contig.kv asks for, in its one line: where its name stands.
fn asked_contig(s: &[u8]) -> Option<Part>
    ensures { ContigAsked s.now result }
{
    let name = kv_text::name_line(s, 0, b"contig=")?;
    if name.end + 1 < s.len() {
        return None;
    }
    Some(name)
}

// The answer for the three texts' files, of which none is too long, and for contig.kv.
fn looks_asked<'a>(
    of_cohort: FileRead,
    cohort: &'a [u8],
    of_clip: FileRead,
    clip: &[u8],
    of_reference: FileRead,
    reference: &'a [u8],
    asked: &[u8],
    scratch: &mut [u64; 8192],
) -> Result<usize, Refusal>
    requires { any_too_long of_cohort of_clip of_reference ≡ false }
    ensures { TextsLooked
        (read_text of_cohort cohort.now) (read_text of_clip clip.now) (read_text of_reference reference.now)
        asked.now scratch.old scratch.new result }
{
    let Some(name) = asked_contig(asked) else {
        slices::clear(scratch, 0);
        return Err(Refusal::Spelling);
    };
    let clipped = is_text(of_clip);
    let referenced = is_text(of_reference);
    search_looks::looks(
        text(of_cohort, cohort),
        clipped,
        text(of_clip, clip),
        referenced,
        text(of_reference, reference),
        tables::part(asked, name.at, name.end),
        scratch,
    )
}

// The answer for the files that were read: the length of each comes before all else, and then what contig.kv says.
fn looks_files<'a>(
    of_cohort: FileRead,
    cohort: &'a [u8],
    of_clip: FileRead,
    clip: &[u8],
    of_reference: FileRead,
    reference: &'a [u8],
    of_contig: FileRead,
    contig: &[u8],
    scratch: &mut [u64; 8192],
) -> Result<usize, Refusal>
    ensures { FilesLooked
        (read_text of_cohort cohort.now) (read_text of_clip clip.now) (read_text of_reference reference.now)
        (read_text of_contig contig.now) scratch.old scratch.new result }
{
    if any_too_long(of_cohort, of_clip, of_reference) {
        slices::clear(scratch, 0);
        return Err(Refusal::Size);
    }
    if is_too_long(of_contig) {
        slices::clear(scratch, 0);
        return Err(Refusal::Size);
    }
    looks_asked(
        of_cohort,
        cohort,
        of_clip,
        clip,
        of_reference,
        reference,
        text(of_contig, contig),
        scratch,
    )
}

// Makes what `looks` prints: `looks=` and the figure, or `refused=` and the number. The answer is how many bytes it has.
fn put_looked(looked: Result<usize, Refusal>, line: &mut [u8; 32]) -> usize
    ensures { Printed (printed_looks (checked_of looked)) line.old line.new result }
{
    match looked {
        Ok(figure) => files::put_figure(line, figure),
        Err(refusal) => files::put_refusal(line, refusal.row()),
    }
}

// What `looks` prints for the files that were read. The answer is how many bytes it has.
pub fn looks_program<'a>(
    of_cohort: FileRead,
    cohort: &'a [u8],
    of_clip: FileRead,
    clip: &[u8],
    of_reference: FileRead,
    reference: &'a [u8],
    of_contig: FileRead,
    contig: &[u8],
    scratch: &mut [u64; 8192],
    line: &mut [u8; 32],
) -> usize
    ensures { LooksPrinted
        (read_text of_cohort cohort.now) (read_text of_clip clip.now) (read_text of_reference reference.now)
        (read_text of_contig contig.now) scratch.old scratch.new line.old line.new result }
{
    let looked = looks_files(
        of_cohort,
        cohort,
        of_clip,
        clip,
        of_reference,
        reference,
        of_contig,
        contig,
        scratch,
    );
    put_looked(looked, line)
}

// The program on files with these names.
pub fn looks_named<R: Files + Print + Eprint>(
    rt: &R,
    cohort_name: &[u8],
    clip_name: &[u8],
    reference_name: &[u8],
    contig_name: &[u8],
) {
    let mut cohort = [0u8; 65537];
    let mut clip = [0u8; 65537];
    let mut reference = [0u8; 65537];
    let mut contig = [0u8; 65537];
    let mut scratch = [0u64; 8192];
    let mut line = [0u8; 32];
    let of_cohort = read_file(rt, cohort_name, &mut cohort);
    let of_clip = read_file(rt, clip_name, &mut clip);
    let of_reference = read_file(rt, reference_name, &mut reference);
    let of_contig = read_file(rt, contig_name, &mut contig);
    if is_failed(of_cohort)
        || is_failed(of_clip)
        || is_failed(of_reference)
        || is_failed(of_contig)
    {
        return;
    }
    let count = looks_program(
        of_cohort,
        &cohort,
        of_clip,
        &clip,
        of_reference,
        &reference,
        of_contig,
        &contig,
        &mut scratch,
        &mut line,
    );
    files::print_first(rt, &line, count);
}

// The looks of the contig that contig.kv asks for, for cohort.kv, clip.kv and reference.kv.
pub fn run_looks<R: Files + Print + Eprint>(rt: &R) {
    looks_named(rt, b"cohort.kv", b"clip.kv", b"reference.kv", b"contig.kv");
}

// ---- call

// The answer for the file that was read: its length comes before all else.
fn call_file(
    of_combined: FileRead,
    combined: &[u8],
    list: &mut [u8; 65536],
) -> Result<usize, Refusal>
    ensures { Answered (called_file (read_text of_combined combined.now)) list.old list.new result }
{
    if is_too_long(of_combined) {
        return Err(Refusal::Size);
    }
    genotype_gvcfs::call(text(of_combined, combined), list)
}

// What `call` prints for the file that was read, made in the list's buffer. The answer is how many bytes it has.
pub fn call_program(of_combined: FileRead, combined: &[u8], list: &mut [u8; 65536]) -> usize
    ensures { Printed (printed_answer (called_file (read_text of_combined combined.now))) list.old list.new result }
{
    let outcome = call_file(of_combined, combined, list);
    files::put_answer(outcome, list)
}

// The program on a file with this name.
pub fn call_named<R: Files + Print + Eprint>(rt: &R, combined_name: &[u8]) {
    let mut combined = [0u8; 65537];
    let mut list = [0u8; 65536];
    let of_combined = read_file(rt, combined_name, &mut combined);
    if is_failed(of_combined) {
        return;
    }
    let count = call_program(of_combined, &combined, &mut list);
    files::print_first(rt, &list, count);
}

// Calls combined.kv, a combined list.
pub fn run_call<R: Files + Print + Eprint>(rt: &R) {
    call_named(rt, b"combined.kv");
}
