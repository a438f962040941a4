// Calls combined.kv, a combined list in the working folder, and prints the called list, or `refused=` and the number.
#![tactic(auto)]

fn main(rt: HostRuntime) {
    programs::run_call(&rt);
}
