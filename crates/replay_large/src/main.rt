// The program replay again, on a session for L = 524,288.
#![tactic(auto)]

fn main(rt: HostRuntime) {
    sessions::replay(&rt);
}
