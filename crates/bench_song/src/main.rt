// The program bench again, on a few notes, the last of a sample that nobody loaded.
#![tactic(auto)]

fn main(rt: HostRuntime) {
    sessions::bench(&rt);
}
