// The calls of calls_ticks for C: one tick, and many.
#![tactic(auto)]

ghost use Rattle.spu.specs.Step.{pair, floats as floated, ran, ran_floats, tick as ticking, tick_floats, run as running, run_floats};
ghost use Rattle.calls.specs.Kept.{Keeps, reports};

use calls_ticks::{Ran, Ticked, TickedFloats};

#[unsafe(no_mangle)]
pub extern "C" fn tenonwhisk_tick(
    state: &mut [u16],
    ram: &mut [u8],
    marks: &mut [u8],
    left: i16,
    right: i16,
) -> Ticked
    ensures { Keeps (ticking left right) state.old ram.old marks.old (pair result.number (record { left = result.left; right = result.right })) result.irq result.doubt state.new ram.new marks.new }
{
    calls_ticks::tenonwhisk_tick(state, ram, marks, left, right)
}

#[unsafe(no_mangle)]
pub extern "C" fn tenonwhisk_tick_floats(
    state: &mut [u16],
    ram: &mut [u8],
    marks: &mut [u8],
    left: i16,
    right: i16,
) -> TickedFloats
    ensures { Keeps (tick_floats left right) state.old ram.old marks.old (floated result.number (record { left = result.left; right = result.right })) result.irq result.doubt state.new ram.new marks.new }
{
    calls_ticks::tenonwhisk_tick_floats(state, ram, marks, left, right)
}

#[unsafe(no_mangle)]
pub extern "C" fn tenonwhisk_run(
    state: &mut [u16],
    ram: &mut [u8],
    marks: &mut [u8],
    cd: &[i16],
    out: &mut [i16],
) -> Ran
    ensures { Keeps (running cd.now out.old) state.old ram.old marks.old (ran result.number result.count result.irq result.doubt out.new) (reports result.irq result.count) (reports result.doubt result.count) state.new ram.new marks.new }
{
    calls_ticks::tenonwhisk_run(state, ram, marks, cd, out)
}

#[unsafe(no_mangle)]
pub extern "C" fn tenonwhisk_run_floats(
    state: &mut [u16],
    ram: &mut [u8],
    marks: &mut [u8],
    cd: &[i16],
    out: &mut [i16],
    floats: &mut [f32],
) -> Ran
    ensures { Keeps (run_floats cd.now out.old floats.old) state.old ram.old marks.old (ran_floats result.number result.count result.irq result.doubt out.new floats.new) (reports result.irq result.count) (reports result.doubt result.count) state.new ram.new marks.new }
{
    calls_ticks::tenonwhisk_run_floats(state, ram, marks, cd, out, floats)
}
