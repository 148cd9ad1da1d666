// Register reads that are not refused, from the buffer.
#![tactic(auto)]

ghost use Rattle.std.specs.Prelude.{◌≡◌, true, cond, ◌+◌, ◌^◌, ◌≤◌, ◌<◌, eqb, leb};
ghost use Rattle.registers.specs.Offsets.{listed as listed_at};
ghost use Rattle.chip.specs.Registers.{end_flags, status_of, doubled as doubled_at, read_of};
ghost use Rattle.layout.specs.Layout.{state_of, voice_in, Formed};

use layout::Buffer;

// A voice's end flag, 0 or 1, as bit k.
fn end_flag(ended: u16, k: usize) -> u16
    requires { (ended ≤ 1) × (k < 16) }
    ensures { result ≡ cond (eqb ended 1) (2 ^ k) 0 }
{
    ended << k
}

// The end flags of count voices from first on. k is the bit of a flag and the number of a voice.
fn end_flags(state: &Buffer, first: usize, count: usize) -> u16
    requires { (first + count ≤ 24) × (count ≤ 16) × Formed state.now }
    ensures { result ≡ end_flags (state_of state.now).voices first count }
{
    let mut flags = 0u16;
    for k in 0..count {
        flags += end_flag(state[layout::ENDED + (first + k)], k);
    }
    flags
}

// The weight w if the bit is set, otherwise 0.
fn weight(set: bool, w: u16) -> u16
    ensures { (result ≡ cond set w 0) × (result ≤ w) }
{
    if set { w } else { 0 }
}

// Whether the capture's place is at or above 200h. It stands as a number of halfwords.
fn past_half(state: &Buffer) -> bool
    ensures { result ≡ leb 0x200 (state_of state.now).capture }
{
    0x100 <= state[layout::CAPTURE]
}

// SPUSTAT.
fn status(state: &Buffer) -> u16
    ensures { result ≡ status_of (state_of state.now) }
{
    let c = layout::control(state);
    let applied = c.applied % 0x40;
    let mode = applied / 0x10 % 4;
    let low = applied + weight(c.latch, 0x40) + weight(applied / 0x20 % 2 == 1, 0x80);
    low + weight(mode == 2, 0x100) + weight(mode == 3, 0x200) + weight(past_half(state), 0x800)
}

// The doubled main volume; offset is the register's.
fn doubled(state: &Buffer, offset: usize) -> u16
    requires { offset < 512 }
    ensures { result ≡ doubled_at (state_of state.now) offset }
{
    fixed::to_bits(fixed::volume(layout::register(state, offset)))
}

// The repeat unit of voice n.
fn repeat(state: &Buffer, n: usize) -> u16
    requires { n < 24 }
    ensures { result ≡ (voice_in state.now n).source.repeat.0 }
{
    state[layout::REPEATS + n]
}

// A register read that is not refused.
pub fn read(state: &Buffer, offset: u32) -> u16
    requires { Formed state.now × (listed_at offset ≡ true) }
    ensures { result ≡ read_of (state_of state.now) offset }
{
    let n = (offset / 16) as usize;
    if (offset < 0x180) & (offset % 16 == 0xC) {
        return layout::level(state, n);
    }
    if (offset < 0x180) & (offset % 16 == 0xE) {
        return repeat(state, n);
    }
    match offset {
        0x19C => end_flags(state, 0, 16),
        0x19E => end_flags(state, 16, 8),
        0x1AE => status(state),
        0x1B8 => doubled(state, 0x180),
        0x1BA => doubled(state, 0x182),
        _ => layout::register(state, offset as usize),
    }
}
