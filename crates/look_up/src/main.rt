// Prints for each pair of places.kv a line `record=` with the number of the record of combined.kv whose stretch holds it, or `.`, then `groups=` and
// how many record groups were read; or `refused=` and the number.
#![tactic(auto)]

fn main(rt: HostRuntime) {
    list_programs::run_look_up(&rt);
}
