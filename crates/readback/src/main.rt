// Writes and reads back every offset from 0 to 3FFh, with four values one after the other, and writes a line for each: the offset, the number
// of the write, the number of the read and the value read. The expected output is that of the reference, reference/readback.py.
#![tactic(auto)]

use std::io;

fn line(rt: &impl Print, state: &mut [u16], offset: u32, value: u16) -> io::Result<()> {
    let number = calls_state::tenonwhisk_write(state, offset, value);
    let r = calls_state::tenonwhisk_read(state, offset);
    println!(rt; "{offset} {number} {} {}", r.number, r.value)
}

fn main(rt: HostRuntime) -> io::Result<()> {
    let mut state = [0u16; layout::LENGTH];
    calls_state::tenonwhisk_make(0x80000, &mut state);
    for value in [0x7654, 0x8123, 0xC0C5, 0x0004] {
        for offset in 0..0x400u32 {
            line(&rt, &mut state, offset, value)?;
        }
    }
    Ok(())
}
