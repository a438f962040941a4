// Combines cohort.kv with clip.kv and reference.kv, files of the working folder, and prints the list, or `refused=` and the number.
#![tactic(auto)]

fn main(rt: HostRuntime) {
    programs::run_combine(&rt);
}
