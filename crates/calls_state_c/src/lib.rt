// The calls of calls_state for C: make, reset, status, register writes and reads, and the number of the block view.
#![tactic(auto)]

ghost use Rattle.std.specs.Prelude.{◌≡◌, false, cond, List, ℕ, length};
ghost use Rattle.chip.specs.State.{fresh_of, size_ok};
ghost use Rattle.layout.specs.Layout.{state_length, Holds};
ghost use Rattle.spu.specs.Step.{written, value as valued, made, viewed, looked, write as writing, read as reading, reset as resetting, view, status as looking};
ghost use Rattle.calls.specs.Kept.{number_in, Keeps, KeepsStill, make_of, view_length};

use calls_state::{Reading, Status};

#[unsafe(no_mangle)]
pub extern "C" fn tenonwhisk_make(size: u32, state: &mut [u16]) -> u8
    ensures { (record { number = result; state = state.new } ≡ make_of size state.old) × (length state.old ≡ state_length → Holds state.new (fresh_of (cond (size_ok size) size 0x10000))) }
{
    calls_state::tenonwhisk_make(size, state)
}

#[unsafe(no_mangle)]
pub extern "C" fn tenonwhisk_reset(state: &mut [u16]) -> u8
    ensures { KeepsStill resetting state.old (made result) state.new }
{
    calls_state::tenonwhisk_reset(state)
}

#[unsafe(no_mangle)]
pub extern "C" fn tenonwhisk_status(state: &[u16]) -> Status
    ensures { KeepsStill looking state.now (looked result.number result.doubt result.size result.tick) state.now }
{
    calls_state::tenonwhisk_status(state)
}

#[unsafe(no_mangle)]
pub extern "C" fn tenonwhisk_write(state: &mut [u16], offset: u32, value: u16) -> u8
    ensures { KeepsStill (writing offset value) state.old (written result) state.new }
{
    calls_state::tenonwhisk_write(state, offset, value)
}

#[unsafe(no_mangle)]
pub extern "C" fn tenonwhisk_read(state: &[u16], offset: u32) -> Reading
    ensures { KeepsStill (reading offset) state.now (valued result.number result.value) state.now }
{
    calls_state::tenonwhisk_read(state, offset)
}

#[unsafe(no_mangle)]
pub extern "C" fn tenonwhisk_view_number(state: &[u16], ram: &[u8], address: u32) -> u8
    ensures { (result ≡ number_in (view address) state.now (length ram.now) 0) × ((marks : List ℕ) → Keeps (view address) state.now ram.now marks (viewed result (view_length result)) false false state.now ram.now marks) }
{
    calls_state::tenonwhisk_view_number(state, ram, address)
}
