// The calls of calls_transfer for C: halfwords moved into and out of sound RAM.
#![tactic(auto)]

ghost use Rattle.spu.specs.Step.{moved, moved_out, transfer_in, transfer_out};
ghost use Rattle.calls.specs.Kept.{Keeps};

use calls_transfer::Moved;

#[unsafe(no_mangle)]
pub extern "C" fn tenonwhisk_transfer_in(
    state: &mut [u16],
    ram: &mut [u8],
    marks: &mut [u8],
    values: &[u16],
) -> Moved
    ensures { Keeps (transfer_in values.now) state.old ram.old marks.old (moved result.number result.count) result.irq result.doubt state.new ram.new marks.new }
{
    calls_transfer::tenonwhisk_transfer_in(state, ram, marks, values)
}

#[unsafe(no_mangle)]
pub extern "C" fn tenonwhisk_transfer_out(
    state: &mut [u16],
    ram: &[u8],
    marks: &[u8],
    out: &mut [u16],
) -> Moved
    ensures { Keeps (transfer_out out.old) state.old ram.now marks.now (moved_out result.number result.count out.new) result.irq result.doubt state.new ram.now marks.now }
{
    calls_transfer::tenonwhisk_transfer_out(state, ram, marks, out)
}
