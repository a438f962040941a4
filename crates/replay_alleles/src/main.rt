// Runs the library's functions of one record over the cases on standard input, and prints what each gave.
//
// A case is a line `name function` and the function's arguments, with spaces between. `room` is how many places of output the call has.
//   trim room alleles                        `reverse_trim::reverse_trim_alleles`
//   gq pl                                    `genotyping::gq_phred_from_pl`
//   drop alleles dropped pl                  `called_genotypes::remap_pl_drop_alleles`, and GQ of what it gives
//   log10 room pl                            `likelihoods::log10_likelihoods_from_pl`
//   subset room alleles keep gl              `allele_subsetting_pl::subset_log10_genotype_likelihoods`
//   unused room room room alts gt gl ad      `allele_subsetting_pl::subset_unused_alts_after_merged_genotyping`, with room for ALTs, GL and AD
// values.rt says how lists are spelled. The input ends at 524,288 bytes.
//
// For each case a line: the name, and `refused=5`, or `written=` with how much was written and the lists behind it. Before the call all of
// the output is set. A line tells if the output behind what was written, all of it after a refusal, isn't as it was.
// tools/make_allele_cases.py writes the input, and what is to be printed, from recorded/ and document 01's rules.
#![tactic(auto)]

use allele_subsetting_pl::UnusedAlts;
use answers::Refusal;
use bio_ids::AlleleIndex;
use kv_text::same_bytes;
use test_cases::{
    after_line, count_field, field, line_at, number_field, print, print_if_changed, print_number,
    print_refused, read_input,
};
use values::{
    first, print_numbers, print_text, print_values, read_alleles, read_numbers, read_values,
};

mod values;

// ---- the arguments and the answer
//
// Of a function of the library `run_` has the outputs, set; `call_` makes the call on them and prints its answer.

// To what each byte, number and value of an output is set before a call.
const SET_BYTE: u8 = 255;

const SET_NUMBER: u32 = 4294967295;

const SET_VALUE: f64 = 0.5;

// A text of a case's line: `.` is the empty one.
fn text_field<'a>(line: &'a [u8], number: usize) -> &'a [u8] {
    let text = field(line, number);
    if same_bytes(text, b".") {
        return tables::part(text, 0, 0);
    }
    text
}

fn print_written(rt: &impl Print, count: usize) {
    print(rt, b" written=");
    print_number(rt, count);
}

// ---- alleles

// Prints the answer, and returns how many bytes were written.
fn print_alleles(rt: &impl Print, outcome: Result<usize, Refusal>, out: &[u8]) -> usize {
    match outcome {
        Ok(count) => {
            print_written(rt, count);
            print_text(rt, tables::part(out, 0, count));
            print(rt, b"\n");
            count
        }
        Err(refusal) => {
            print_refused(rt, refusal);
            0
        }
    }
}

fn call_trim(rt: &impl Print, line: &[u8], out: &mut [u8]) {
    let room = count_field(line, 2, out.len());
    let outcome = reverse_trim::reverse_trim_alleles(text_field(line, 3), &mut out[..room]);
    let count = print_alleles(rt, outcome, out);
    print_if_changed(rt, out, count, SET_BYTE);
}

fn run_trim(rt: &impl Print, line: &[u8]) {
    let mut out = [SET_BYTE; 4096];
    call_trim(rt, line, &mut out);
}

// ---- PL

fn print_gq(rt: &impl Print, pl: &[u32]) {
    print(rt, b" gq=");
    let gq = genotyping::gq_phred_from_pl(pl);
    print_number(rt, gq as usize);
    print(rt, b"\n");
}

fn run_gq(rt: &impl Print, line: &[u8]) {
    let mut pl = [0u32; 136];
    let count = read_numbers(field(line, 2), &mut pl);
    print_gq(rt, first(&pl, count));
}

// Prints so many PLs of the output, and their GQ.
fn print_pl(rt: &impl Print, out: &[u32], count: usize) {
    print_written(rt, count);
    let pl = first(out, count);
    print_numbers(rt, pl);
    print_gq(rt, pl);
    print_if_changed(rt, out, count, SET_NUMBER);
}

fn call_drop(rt: &impl Print, line: &[u8], out: &mut [u32]) {
    let mut pl = [0u32; 136];
    let count = read_numbers(field(line, 4), &mut pl);
    let alleles = number_field(line, 2);
    let dropped = AlleleIndex::new(count_field(line, 3, 255) as u8);
    let written = called_genotypes::remap_pl_drop_alleles(alleles, dropped, first(&pl, count), out);
    print_pl(rt, out, written);
}

fn run_drop(rt: &impl Print, line: &[u8]) {
    let mut out = [SET_NUMBER; 136];
    call_drop(rt, line, &mut out);
}

// ---- likelihoods

// Prints the answer, and if the output behind what was written has changed.
fn print_likelihoods(rt: &impl Print, outcome: Result<usize, Refusal>, out: &[f64]) {
    match outcome {
        Ok(count) => {
            print_written(rt, count);
            print_values(rt, first(out, count));
            print(rt, b"\n");
            print_if_changed(rt, out, count, SET_VALUE);
        }
        Err(refusal) => {
            print_refused(rt, refusal);
            print_if_changed(rt, out, 0, SET_VALUE);
        }
    }
}

// The call of a case.
fn log10(line: &[u8], out: &mut [f64]) -> Result<usize, Refusal> {
    let mut pl = [0u32; 136];
    let count = read_numbers(field(line, 3), &mut pl);
    likelihoods::log10_likelihoods_from_pl(first(&pl, count), out)
}

fn subset(line: &[u8], out: &mut [f64]) -> Result<usize, Refusal> {
    let mut keep = [0usize; 32];
    let keep_count = read_alleles(field(line, 4), &mut keep);
    let mut gl = [0.0f64; 256];
    let gl_count = read_values(text_field(line, 5), &mut gl);
    let alleles = number_field(line, 3);
    allele_subsetting_pl::subset_log10_genotype_likelihoods(
        first(&gl, gl_count),
        alleles,
        first(&keep, keep_count),
        out,
    )
}

// The call that a case names.
fn log10_or_subset(line: &[u8], out: &mut [f64]) -> Result<usize, Refusal> {
    if same_bytes(field(line, 1), b"log10") {
        return log10(line, out);
    }
    subset(line, out)
}

fn call_likelihoods(rt: &impl Print, line: &[u8], out: &mut [f64]) {
    let room = count_field(line, 2, out.len());
    let outcome = log10_or_subset(line, &mut out[..room]);
    print_likelihoods(rt, outcome, out);
}

fn run_likelihoods(rt: &impl Print, line: &[u8]) {
    let mut out = [SET_VALUE; 256];
    call_likelihoods(rt, line, &mut out);
}

// ---- unused ALTs

// Prints if an output has changed behind what was written.
fn print_faults(rt: &impl Print, written: UnusedAlts, alts: &[u8], gl: &[f64], ad: &[u32]) {
    print_if_changed(rt, alts, written.alts, SET_BYTE);
    print_if_changed(rt, gl, written.likelihoods, SET_VALUE);
    print_if_changed(rt, ad, written.ad, SET_NUMBER);
}

// Prints how much was written of each, and the lists.
fn print_record(rt: &impl Print, written: UnusedAlts, alts: &[u8], gl: &[f64], ad: &[u32]) {
    print_written(rt, written.alts);
    print(rt, b",");
    print_number(rt, written.likelihoods);
    print(rt, b",");
    print_number(rt, written.ad);
    print_text(rt, tables::part(alts, 0, written.alts));
    print_values(rt, first(gl, written.likelihoods));
    print_numbers(rt, first(ad, written.ad));
    print(rt, b"\n");
}

fn print_unused_outcome(
    rt: &impl Print,
    outcome: Result<UnusedAlts, Refusal>,
    alts: &[u8],
    gl: &[f64],
    ad: &[u32],
) {
    match outcome {
        Ok(written) => {
            print_record(rt, written, alts, gl, ad);
            print_faults(rt, written, alts, gl, ad);
        }
        Err(refusal) => {
            let nothing = UnusedAlts {
                alts: 0,
                likelihoods: 0,
                ad: 0,
            };
            print_refused(rt, refusal);
            print_faults(rt, nothing, alts, gl, ad);
        }
    }
}

// The call of a case.
fn unused(
    line: &[u8],
    alts_out: &mut [u8],
    gl_out: &mut [f64],
    ad_out: &mut [u32],
) -> Result<UnusedAlts, Refusal> {
    let mut gt = [0usize; 32];
    let gt_count = read_alleles(field(line, 6), &mut gt);
    let mut gl = [0.0f64; 256];
    let gl_count = read_values(text_field(line, 7), &mut gl);
    let mut ad = [0u32; 32];
    let ad_count = read_numbers(field(line, 8), &mut ad);
    let alts = text_field(line, 5);
    allele_subsetting_pl::subset_unused_alts_after_merged_genotyping(
        alts,
        first(&gt, gt_count),
        first(&gl, gl_count),
        first(&ad, ad_count),
        alts_out,
        gl_out,
        ad_out,
    )
}

fn call_unused(
    rt: &impl Print,
    line: &[u8],
    alts_out: &mut [u8],
    gl_out: &mut [f64],
    ad_out: &mut [u32],
) {
    let alts_room = count_field(line, 2, alts_out.len());
    let gl_room = count_field(line, 3, gl_out.len());
    let ad_room = count_field(line, 4, ad_out.len());
    let outcome = unused(
        line,
        &mut alts_out[..alts_room],
        &mut gl_out[..gl_room],
        &mut ad_out[..ad_room],
    );
    print_unused_outcome(rt, outcome, alts_out, gl_out, ad_out);
}

fn run_unused(rt: &impl Print, line: &[u8]) {
    let mut alts_out = [SET_BYTE; 256];
    let mut gl_out = [SET_VALUE; 256];
    let mut ad_out = [SET_NUMBER; 32];
    call_unused(rt, line, &mut alts_out, &mut gl_out, &mut ad_out);
}

// ---- the cases

fn run_case(rt: &impl Print, line: &[u8]) {
    print(rt, field(line, 0));
    let function = field(line, 1);
    if same_bytes(function, b"trim") {
        run_trim(rt, line);
    }
    if same_bytes(function, b"gq") {
        run_gq(rt, line);
    }
    if same_bytes(function, b"drop") {
        run_drop(rt, line);
    }
    if same_bytes(function, b"log10") {
        run_likelihoods(rt, line);
    }
    if same_bytes(function, b"subset") {
        run_likelihoods(rt, line);
    }
    if same_bytes(function, b"unused") {
        run_unused(rt, line);
    }
}

fn run_cases(rt: &impl Print, input: &[u8]) {
    let mut at = 0;
    // by offsets: the edit case_read_again is of this step
    while at < input.len() {
        run_case(rt, line_at(input, at));
        at = after_line(input, at);
    }
}

// Reads the input, and runs its cases. Apart from `main`, so that the proof has no literal of so many bytes before it.
fn run_input(rt: &(impl Input + Print), input: &mut [u8; 524288]) {
    let count = read_input(rt, input);
    run_cases(rt, tables::part(input, 0, count));
}

fn main(rt: HostRuntime) {
    let mut input = [0u8; 524288];
    run_input(&rt, &mut input);
}
