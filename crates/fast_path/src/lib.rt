// The fast path of a tick: a voice that stays in its block. What it gives and where it comes to, but for its envelope's step, read out of the buffer.
#![tactic(auto)]

ghost use Rattle.std.specs.Prelude.{◌≡◌, ◌+◌, ◌≤◌, ◌<◌};
ghost use Rattle.pitch.specs.Pitch.{moved_of};
ghost use Rattle.voice.specs.Voice.{sound_of, amplitude_of, movement_of, target_of};
ghost use Rattle.voices.specs.Voices.{settings_of};
ghost use Rattle.layout.specs.Layout.{voice_in};
ghost use Rattle.fast_path.specs.Steady.{Toned, steady_of, Steps};

use gauss::Table;
use layout::Buffer;
use std::array;
use voice::Settings;
use voices::AllSettings;

// What a tick of a voice with its block loaded gives, beside its envelope's step: the place between samples, the sample that it
// leads to, which may lie past the block's last, and the amplitude.
#[derive(Clone, Copy)]
pub struct Stayed {
    pub counter: u16,
    pub target: u32,
    pub amplitude: i16,
}

// What every tick looks at in voice n's settings; the rates of its envelope are left out.
fn tone(all: &AllSettings<'_>, n: usize) -> Settings
    requires { n < 24 }
    ensures { Toned (settings_of all.now.regs.now n) result }
{
    Settings {
        pitch: registers::of_voice(all.regs, n, 4),
        low: 0,
        high: 0,
        modulated: registers::has(all.pmon, n),
        noise: registers::has(all.non, n),
    }
}

// The pitch step of a voice that plays its samples and is not modulated: it holds as long as the registers do.
fn steady(s: Settings) -> Option<u16>
    ensures { result ≡ steady_of s }
{
    if s.noise | s.modulated {
        return None;
    }
    Some(pitch::step(s.pitch, false, 0))
}

// The same for all voices.
pub fn steps(all: &AllSettings<'_>) -> [Option<u16>; 24]
    ensures { Steps all.now.regs.now result }
{
    array::from_fn(|n| steady(all.of(n)))
}

// What voice n gives before its envelope: its samples, interpolated, or the noise.
fn sound(table: &Table, s: Settings, level: u16, state: &Buffer, n: usize) -> i16
    requires { (n < 24) × ((voice_in state.now n).position.index ≤ 27) }
    ensures { result ≡ sound_of s level (voice_in state.now n) }
{
    if s.noise {
        return fixed::to_signed(level);
    }
    let p = layout::position(state, n);
    let i = gauss::index(p.counter);
    let k = p.index as usize;
    table.interpolate(
        i,
        layout::sample(state, n, k),
        layout::sample(state, n, k + 1),
        layout::sample(state, n, k + 2),
        layout::sample(state, n, k + 3),
    )
}

// What voice n gives by these settings, and where the pitch step leads it.
fn moved(table: &Table, state: &Buffer, n: usize, s: Settings, level: u16, step: u16) -> Stayed
    requires { (n < 24) × ((voice_in state.now n).position.counter < 0x1000) × ((voice_in state.now n).position.index ≤ 27) × ((voice_in state.now n).envelope.level ≤ 0x7FFF) × (step ≤ 0x4000) }
    ensures { (result.counter ≡ (moved_of (voice_in state.now n).position.counter step).counter) × (result.target ≡ (voice_in state.now n).position.index + (moved_of (voice_in state.now n).position.counter step).moves) × (result.target < 32) × (result.amplitude ≡ amplitude_of s level (voice_in state.now n)) }
{
    let x = voice_sound::scaled(sound(table, s, level, state, n), layout::level(state, n));
    let q = layout::position(state, n);
    let p = pitch::advance(q.counter, step);
    Stayed {
        counter: p.counter,
        target: q.index as u32 + p.moves,
        amplitude: x,
    }
}

// Voice n with its block loaded. Most voices play their samples and are not modulated, and need neither their settings nor the voice below.
pub fn stay(
    table: &Table,
    all: &AllSettings<'_>,
    state: &Buffer,
    n: usize,
    step: Option<u16>,
    below: i16,
    level: u16,
) -> Stayed
    requires { (n < 24) × (step ≡ steady_of (settings_of all.now.regs.now n)) × ((voice_in state.now n).position.counter < 0x1000) × ((voice_in state.now n).position.index ≤ 27) × ((voice_in state.now n).envelope.level ≤ 0x7FFF) }
    ensures { (result.counter ≡ (movement_of (settings_of all.now.regs.now n) below (voice_in state.now n)).counter) × (result.target ≡ target_of (settings_of all.now.regs.now n) below (voice_in state.now n)) × (result.target < 32) × (result.amplitude ≡ amplitude_of (settings_of all.now.regs.now n) level (voice_in state.now n)) }
{
    if let Some(step) = step {
        let plain = Settings {
            pitch: 0,
            low: 0,
            high: 0,
            modulated: false,
            noise: false,
        };
        return moved(table, state, n, plain, 0, step);
    }
    let s = tone(all, n);
    moved(
        table,
        state,
        n,
        s,
        level,
        pitch::step(s.pitch, s.modulated, below),
    )
}
