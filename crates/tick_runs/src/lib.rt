// A run of ticks, on the buffer: the voices change in place, and what else a tick changes stays in locals from the first tick to the last.
#![tactic(auto)]

ghost use Rattle.std.specs.Prelude.{◌≡◌, ◌%◌, ◌<◌};
ghost use Rattle.soundram.specs.Address.{Lent};
ghost use Rattle.soundram.specs.Program.{mem_of};
ghost use Rattle.voice.specs.Range as voice;
ghost use Rattle.voice.specs.Voice.{load_of, arrive_of};
ghost use Rattle.voices.specs.Voices.{AllIn};
ghost use Rattle.chip.specs.Range.{InRange};
ghost use Rattle.tick.specs.Run.{join_of, begin_of};
ghost use Rattle.layout.specs.Layout.{state_of, voice_in, Formed, Holds};
ghost use Rattle.layout.specs.Stores.{with_voice};
ghost use Rattle.fast_path.specs.Steady.{Steps};
ghost use Rattle.tick_runs.specs.Run.{Becomes, enveloped, moved_to, PlaysAll, Runs};

use chip::Control;
use gauss::Table;
use layout::Buffer;
use soundram::{Reader, Watch};
use tick::{Going, Rest};
use voice::{Position, Voice};
use voices::AllSettings;

// The amplitudes of all voices.
#[derive(Clone, Copy)]
struct AllPlayed {
    amplitudes: [i16; 24],
    watch: Watch,
}

// Which tick raised the interrupt and which the doubt; the number of ticks if none did, as the calls for C answer.
#[derive(Clone, Copy)]
pub struct Reports {
    pub irq: usize,
    pub doubt: usize,
}

// Voice n becomes v, with the block at its address loaded.
fn load(
    state: &mut Buffer,
    n: usize,
    v: Voice,
    size: u32,
    ram: &[u8],
    marks: &[u8],
    w: Watch,
) -> Watch
    requires { (n < 24) × Formed state.old × (v.source.address.0 % 8 ≡ 0) × (v.source.address.0 < size) × Lent size ram.now marks.now }
    ensures { Becomes n (load_of (Reader.Voice n) size v) state.old (mem_of ram.now marks.now w) state.new (mem_of ram.now marks.now result) }
{
    let l = voice_block::fetch(v, Reader::Voice(n as u8), size, ram, marks, w);
    layout::put_voice(state, n, l.voice);
    l.watch
}

// The envelope of voice n takes its step. Most only wait, and look at no rate.
fn step_envelope(all: &AllSettings<'_>, state: &mut Buffer, n: usize)
    requires { (n < 24) × Formed state.old }
    ensures { Holds state.new (with_voice (state_of state.old) n (enveloped all.now.regs.now n (voice_in state.old n))) }
{
    let wait = layout::wait(state, n);
    if layout::is_active(state, n) & (1 < wait) {
        layout::put_wait(state, n, wait - 1);
        return;
    }
    let s = all.of(n);
    let e = envelope_tick::tick(layout::envelope(state, n), s.low, s.high);
    layout::put_envelope(state, n, e);
}

// Both steps of voice n, where the pitch step leads past the block's last sample.
fn pass_end(
    all: &AllSettings<'_>,
    state: &mut Buffer,
    n: usize,
    counter: u16,
    target: u32,
    size: u32,
    ram: &[u8],
    marks: &[u8],
    w: Watch,
) -> Watch
    requires { (n < 24) × Formed state.old × voice.InRange size (voice_in state.old n) × (counter < 0x1000) × (27 < target) × (target < 32) × Lent size ram.now marks.now }
    ensures { Becomes n (arrive_of (Reader.Voice n) size target (moved_to all.now.regs.now n counter (voice_in state.old n))) state.old (mem_of ram.now marks.now w) state.new (mem_of ram.now marks.now result) }
{
    let s = all.of(n);
    let before = layout::voice(state, n);
    let envelope = envelope_tick::tick(before.envelope, s.low, s.high);
    let position = Position {
        counter,
        index: (target - 28) as u8,
    };
    let stepped = Voice {
        envelope,
        position,
        ..before
    };
    let past = voice_block::end(size, stepped);
    load(state, n, past, size, ram, marks, w)
}

// All voices play a tick, one after the other, each in document 01's five steps. Most stay in their block, on the fast path. n is the voice's number, in
// every array of the buffer.
fn play_all(
    table: &Table,
    all: &AllSettings<'_>,
    steps: &[Option<u16>; 24],
    size: u32,
    state: &mut Buffer,
    level: u16,
    ram: &[u8],
    marks: &[u8],
    w: Watch,
) -> AllPlayed
    requires { Steps all.now.regs.now steps.now × Formed state.old × AllIn size (state_of state.old).voices × Lent size ram.now marks.now }
    ensures { PlaysAll size all.now.regs.now level state.old (mem_of ram.now marks.now w) result.amplitudes state.new (mem_of ram.now marks.now result.watch) }
{
    let mut amplitudes = [0i16; 24];
    let mut watch = w;
    let mut below = 0i16;
    for n in 0..24usize {
        if layout::is_idle(state, n) {
            below = 0;
            amplitudes[n] = 0;
            continue;
        }
        if !layout::loaded(state, n) {
            let v = layout::voice(state, n);
            watch = load(state, n, v, size, ram, marks, watch);
        }
        let m = fast_path::stay(table, all, state, n, steps[n], below, level);
        below = m.amplitude;
        amplitudes[n] = below;
        if 27 < m.target {
            watch = pass_end(all, state, n, m.counter, m.target, size, ram, marks, watch);
            continue;
        }
        layout::put_position(state, n, m.counter, m.target as u16);
        step_envelope(all, state, n);
    }
    AllPlayed { amplitudes, watch }
}

// Before a run of so many ticks.
fn begin(state: &Buffer, regs: &[u16; 256], count: usize) -> Going
    requires { Formed state.now × InRange (state_of state.now) × (regs.now ≡ (state_of state.now).regs) }
    ensures { result ≡ begin_of (state_of state.now) count }
{
    let rest = Rest {
        noise: layout::noise(state),
        applied: layout::control(state).applied,
        capture: layout::capture(state),
        reverb: layout::reverb(state),
        tick: layout::tick(state),
    };
    Going {
        rest,
        noise: noise::tick(rest.noise, registers::at(regs, 0x1AA)),
        watch: layout::watch(state),
        irq: count,
        doubt: count,
    }
}

// Puts back what a run changed besides the voices.
fn end(state: &mut Buffer, r: Rest, w: Watch)
    requires { Formed state.old × (r.capture % 2 ≡ 0) × (r.reverb.place.0 % 2 ≡ 0) }
    ensures { Holds state.new (join_of (state_of state.old) (state_of state.old).voices r w) }
{
    let control = Control {
        applied: r.applied,
        latch: w.latch,
        doubt: w.doubt,
    };
    layout::put_rest(state, r.noise, control, r.capture, r.reverb, r.tick);
}

// One tick for each pair of the buffer out.
pub fn run(
    state: &mut Buffer,
    ram: &mut [u8],
    marks: &mut [u8],
    cd: &[i16],
    out: &mut [i16],
) -> Reports
    requires { Formed state.old × InRange (state_of state.old) × Lent (state_of state.old).choices.size ram.old marks.old }
    ensures { Runs (state_of state.old) ram.old marks.old cd.now out.old result.irq result.doubt state.new ram.new marks.new out.new }
{
    let size = layout::size(state);
    let regs = layout::registers(state);
    let table = Table::new();
    let all = AllSettings::new(&regs);
    let volumes = voices_mix::volumes(&regs);
    let steps = fast_path::steps(&all);
    let count = out.len() / 2;
    let mut g = begin(state, &regs, count);
    for k in 0..count {
        let p = play_all(
            &table,
            &all,
            &steps,
            size,
            state,
            g.noise.level,
            ram,
            marks,
            g.watch,
        );
        g = tick::finish(
            &regs,
            size,
            g,
            &volumes,
            p.amplitudes,
            ram,
            marks,
            cd,
            out,
            k,
            p.watch,
        );
    }
    end(state, g.rest, g.watch);
    Reports {
        irq: g.irq,
        doubt: g.doubt,
    }
}
