// Runs the programs on files of the working folder by other names, and prints what they print, one after the other.
// tools/make_program_cases.py writes the files, and what is to be printed, from examples/ and document 01's rules.
#![tactic(auto)]

use programs::{call_named, combine_named, looks_named};
use std::rt::Files;

fn combine_cases<R: Files + Print + Eprint>(rt: &R) {
    // a cohort with clip and reference
    combine_named(
        rt,
        b"orchard_cohort.kv",
        b"orchard_clip.kv",
        b"orchard_reference.kv",
    );
    // a clip that is there and empty
    combine_named(rt, b"example.kv", b"empty.kv", b"absent.kv");
    // refused, with a clip of 65,536 bytes
    combine_named(rt, b"conflict.kv", b"full_clip.kv", b"absent.kv");
    // each file with a byte more
    combine_named(rt, b"long_clip.kv", b"absent.kv", b"absent.kv");
    combine_named(rt, b"conflict.kv", b"long_clip.kv", b"absent.kv");
    combine_named(rt, b"conflict.kv", b"absent.kv", b"long_clip.kv");
    // no cohort
    combine_named(rt, b"absent.kv", b"absent.kv", b"absent.kv");
}

fn looks_cases<R: Files + Print + Eprint>(rt: &R) {
    let none = b"absent.kv";
    // two intervals and two sites; none of them in an empty clip; a contig that no site names
    looks_named(rt, b"example.kv", none, none, b"contig_c.kv");
    looks_named(rt, b"example.kv", b"empty.kv", none, b"contig_c.kv");
    looks_named(rt, b"example.kv", none, none, b"contig_d.kv");
    // contig.kv is absent, has two lines, no name, or no LF
    looks_named(rt, b"example.kv", none, none, none);
    looks_named(rt, b"example.kv", none, none, b"two_contigs.kv");
    looks_named(rt, b"example.kv", none, none, b"no_name.kv");
    looks_named(rt, b"example.kv", none, none, b"contig_without_lf.kv");
    // refused as the list is, on another contig
    looks_named(rt, b"conflict.kv", b"full_clip.kv", none, b"contig_d.kv");
    // a file with a byte too many comes before a contig.kv out of order
    looks_named(rt, b"conflict.kv", none, none, b"long_clip.kv");
    looks_named(rt, b"conflict.kv", b"long_clip.kv", none, b"two_contigs.kv");
    // no cohort
    looks_named(rt, none, none, none, b"two_contigs.kv");
    looks_named(rt, none, none, none, b"contig_c.kv");
}

fn call_cases<R: Files + Print + Eprint>(rt: &R) {
    call_named(rt, b"orchard_combined.kv");
    // a list of 65,536 bytes, and one with a byte more
    call_named(rt, b"full_list.kv");
    call_named(rt, b"long_list.kv");
    // no list
    call_named(rt, b"absent.kv");
}

fn main(rt: HostRuntime) {
    combine_cases(&rt);
    looks_cases(&rt);
    call_cases(&rt);
}
