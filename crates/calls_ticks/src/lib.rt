// Calls on a lent state: one tick, and many. What C gets has a number, 0 unless the call is refused; the pairs are two structs, since C has no generic one.
#![tactic(auto)]

ghost use Rattle.std.specs.Prelude.{◌≡◌, false, pos, map, length};
ghost use Rattle.stereo.specs.Float.{float_of};
ghost use Rattle.layout.specs.Layout.{state_of, is_state};
ghost use Rattle.spu.specs.Step.{pair, floats as floated, ran, ran_floats, tick as ticking, tick_floats, run as running, run_floats, lent_tests, run_tests};
ghost use Rattle.calls.specs.Kept.{tested_of, Keeps, reports};
ghost use Rattle.calls.specs.Refusals.{number_of, answered};

use calls::Refusal;

#[repr(C)]
#[derive(Clone, Copy)]
pub struct Ticked {
    pub number: u8,
    pub irq: bool,
    pub doubt: bool,
    pub left: i16,
    pub right: i16,
}

#[repr(C)]
#[derive(Clone, Copy)]
pub struct TickedFloats {
    pub number: u8,
    pub irq: bool,
    pub doubt: bool,
    pub left: f32,
    pub right: f32,
}

// How many ticks there were, and which of them raised the interrupt and which the doubt; the number of ticks if none did.
#[repr(C)]
#[derive(Clone, Copy)]
pub struct Ran {
    pub number: u8,
    pub count: usize,
    pub irq: usize,
    pub doubt: usize,
}

fn not_ticked(refusal: Refusal) -> Ticked
    ensures { result ≡ record { number = number_of refusal; irq = false; doubt = false; left = pos 0; right = pos 0 } }
{
    Ticked {
        number: refusal.number(),
        irq: false,
        doubt: false,
        left: 0,
        right: 0,
    }
}

// One tick, with a raw pair from the CD.
#[unsafe(no_mangle)]
pub extern "C" fn tenonwhisk_tick(
    state: &mut [u16],
    ram: &mut [u8],
    marks: &mut [u8],
    left: i16,
    right: i16,
) -> Ticked
    ensures { Keeps (ticking left right) state.old ram.old marks.old (pair result.number (record { left = result.left; right = result.right })) result.irq result.doubt state.new ram.new marks.new }
{
    let Some(buffer) = state.as_mut_array() else {
        return not_ticked(Refusal::NotAState);
    };
    if let Err(refusal) = calls::check_lent(buffer, ram.len(), marks.len()) {
        return not_ticked(refusal);
    }
    let cd = [left, right];
    let mut out = [0i16; 2];
    let r = tick_runs::run(buffer, ram, marks, &cd, &mut out);
    Ticked {
        number: 0,
        irq: r.irq == 0,
        doubt: r.doubt == 0,
        left: out[0],
        right: out[1],
    }
}

// The same, with the pair as floats.
#[unsafe(no_mangle)]
pub extern "C" fn tenonwhisk_tick_floats(
    state: &mut [u16],
    ram: &mut [u8],
    marks: &mut [u8],
    left: i16,
    right: i16,
) -> TickedFloats
    ensures { Keeps (tick_floats left right) state.old ram.old marks.old (floated result.number (record { left = result.left; right = result.right })) result.irq result.doubt state.new ram.new marks.new }
{
    let t = tenonwhisk_tick(state, ram, marks, left, right);
    let p = stereo::to_floats(t.left, t.right);
    TickedFloats {
        number: t.number,
        irq: t.irq,
        doubt: t.doubt,
        left: p.left,
        right: p.right,
    }
}

// Whether a run may be made; the last four are the lengths of what is lent.
fn check_run(state: &[u16], ram: usize, marks: usize, cd: usize, out: usize) -> Result<(), Refusal>
    ensures { answered result ≡ tested_of state.now (lent_tests (is_state state.now) (state_of state.now) ram marks (run_tests cd out)) }
{
    calls::check_lent(state, ram, marks)?;
    if ((cd != 0) & (cd != out)) | (out % 2 != 0) {
        return Err(Refusal::BadBuffers);
    }
    Ok(())
}

fn refused(refusal: Refusal) -> Ran
    ensures { result ≡ record { number = number_of refusal; count = 0; irq = 0; doubt = 0 } }
{
    Ran {
        number: refusal.number(),
        count: 0,
        irq: 0,
        doubt: 0,
    }
}

// One tick for each pair of the buffer out. The CD gives as many pairs, or silence if its buffer is empty.
#[unsafe(no_mangle)]
pub extern "C" fn tenonwhisk_run(
    state: &mut [u16],
    ram: &mut [u8],
    marks: &mut [u8],
    cd: &[i16],
    out: &mut [i16],
) -> Ran
    ensures { Keeps (running cd.now out.old) state.old ram.old marks.old (ran result.number result.count result.irq result.doubt out.new) (reports result.irq result.count) (reports result.doubt result.count) state.new ram.new marks.new }
{
    let Some(buffer) = state.as_mut_array() else {
        return refused(Refusal::NotAState);
    };
    if let Err(refusal) = check_run(buffer, ram.len(), marks.len(), cd.len(), out.len()) {
        return refused(refusal);
    }
    let count = out.len() / 2;
    let r = tick_runs::run(buffer, ram, marks, cd, out);
    Ran {
        number: 0,
        count,
        irq: r.irq,
        doubt: r.doubt,
    }
}

// Each sample as a float.
fn to_floats(out: &[i16], floats: &mut [f32])
    requires { length floats.old ≡ length out.now }
    ensures { floats.new ≡ map float_of out.now }
{
    for (i, x) in out.iter().enumerate() {
        floats[i] = stereo::to_float(*x);
    }
}

// A run, and its samples as floats beside.
#[unsafe(no_mangle)]
pub extern "C" fn tenonwhisk_run_floats(
    state: &mut [u16],
    ram: &mut [u8],
    marks: &mut [u8],
    cd: &[i16],
    out: &mut [i16],
    floats: &mut [f32],
) -> Ran
    ensures { Keeps (run_floats cd.now out.old floats.old) state.old ram.old marks.old (ran_floats result.number result.count result.irq result.doubt out.new floats.new) (reports result.irq result.count) (reports result.doubt result.count) state.new ram.new marks.new }
{
    let Some(buffer) = state.as_mut_array() else {
        return refused(Refusal::NotAState);
    };
    if let Err(refusal) = check_run(buffer, ram.len(), marks.len(), cd.len(), out.len()) {
        return refused(refusal);
    }
    if floats.len() != out.len() {
        return refused(Refusal::BadBuffers);
    }
    let count = out.len() / 2;
    let r = tick_runs::run(buffer, ram, marks, cd, out);
    to_floats(out, floats);
    Ran {
        number: 0,
        count,
        irq: r.irq,
        doubt: r.doubt,
    }
}
