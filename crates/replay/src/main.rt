// The program replay L: one answer to each line, L its argument.
#![tactic(auto)]

fn main(rt: HostRuntime) {
    sessions::replay(&rt);
}
