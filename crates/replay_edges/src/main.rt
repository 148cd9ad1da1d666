// The program replay again, on the edges of document 01 that are run and compared.
#![tactic(auto)]

fn main(rt: HostRuntime) {
    sessions::replay(&rt);
}
