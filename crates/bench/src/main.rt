// The program bench of document 01.
#![tactic(auto)]

fn main(rt: HostRuntime) {
    sessions::bench(&rt);
}
