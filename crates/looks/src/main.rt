// Prints how many sites the search along a contig looks at: `looks=` and the figure, or `refused=` and the number. The contig is that of contig.kv;
// cohort.kv, clip.kv and reference.kv are as for `combine`.
#![tactic(auto)]

fn main(rt: HostRuntime) {
    programs::run_looks(&rt);
}
