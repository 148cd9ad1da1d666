// The state in the buffer that a caller lends, 1,284 halfwords: where each part stands, read and put in place.
#![tactic(auto)]

ghost use Rattle.std.specs.Prelude.{◌≡◌, ◌+◌, ◌*◌, ◌/◌, ◌%◌, ◌≤◌, ◌<◌, pos, get_or, set, replicate};
ghost use Rattle.fixed.specs.Signed.{signed};
ghost use Rattle.registers.specs.Map.{register_at};
ghost use Rattle.chip.specs.State.{with_regs, with_voices, with_control, with_transfer, fresh_of, watch_of, watched_of};
ghost use Rattle.layout.specs.Layout.{state_length, place as place_of, Formed, state_of, voice_in, Holds, wide as wide_of, low_half, high_half, phase_of, phase_number, list_of};
ghost use Rattle.envelope.specs.Adsr.{active};
ghost use Rattle.voice.specs.Voice.{is_idle, with_envelope, with_position, fresh as fresh_voice};
ghost use Rattle.layout.specs.Stores.{put_words, sample_word, Samples, put_tail, with_voice, with_wait, with_repeat, with_noise, with_place, with_rest, zeros_of, blank_of};

use chip::{Control, Reverb};
use envelope::{Envelope, Phase};
use noise::Noise;
use soundram::{ByteAddress, UnitAddress, Watch};
use stereo::Stereo;
use voice::{Playing, Position, Source, Voice};

pub const LENGTH: usize = 1284;

// A buffer of a state's length, whatever stands in it.
pub type Buffer = [u16; LENGTH];

pub const TAG: u16 = 0x5754;

pub const VERSION: u16 = 0x32;

// Where each part begins: the registers, the arrays over the voices, the samples of voice 0, and what follows the voices.
pub const REGISTERS: usize = 4;

pub const PHASES: usize = 260;

pub const LEVELS: usize = 284;

pub const WAITS: usize = 308;

pub const COUNTERS: usize = 356;

pub const INDICES: usize = 380;

pub const UNITS: usize = 404;

pub const REPEATS: usize = 428;

pub const LOADED: usize = 452;

pub const FLAGS: usize = 476;

pub const ENDED: usize = 500;

pub const SAMPLES: usize = 524;

pub const NOISE: usize = 1268;

pub const TIMER: usize = 1269;

pub const APPLIED: usize = 1271;

pub const LATCH: usize = 1272;

pub const DOUBT: usize = 1273;

pub const CAPTURE: usize = 1274;

pub const PLACE: usize = 1275;

pub const RIGHT: usize = 1277;

pub const HELD: usize = 1278;

pub const TICK: usize = 1280;

pub const TRANSFER: usize = 1282;

// The 32-bit number that two halves make, and each half of a number.

pub fn wide(low: u16, high: u16) -> u32
    ensures { result ≡ wide_of low high }
{
    low as u32 + high as u32 * 0x10000
}

fn low(x: u32) -> u16
    ensures { result ≡ low_half x }
{
    (x % 0x10000) as u16
}

fn high(x: u32) -> u16
    ensures { result ≡ high_half x }
{
    (x / 0x10000) as u16
}

// The byte address of a unit.
fn address(unit: u16) -> ByteAddress
    ensures { result ≡ record { 0 = unit * 8 } }
{
    ByteAddress(unit as u32 * 8)
}

// ---- read

pub fn size(state: &Buffer) -> u32
    ensures { result ≡ (state_of state.now).choices.size }
{
    wide(state[2], state[3])
}

#[tactic(auto, unfolding(crate::specs::Layout::phase_of))]
pub fn phase_of(n: u16) -> Phase
    ensures { result ≡ phase_of n }
{
    match n {
        0 => Phase::Idle,
        1 => Phase::Attack,
        2 => Phase::Decay,
        3 => Phase::Sustain,
        4 => Phase::Release,
        _ => Phase::Off,
    }
}

// The registers, copied out.
pub fn registers(state: &Buffer) -> [u16; 256]
    ensures { result ≡ (state_of state.now).regs }
{
    let mut regs = [0; 256];
    regs.copy_from_slice(&state[REGISTERS..PHASES]);
    regs
}

pub fn envelope(state: &Buffer, n: usize) -> Envelope
    requires { n < 24 }
    ensures { result ≡ (voice_in state.now n).envelope }
{
    Envelope {
        phase: phase(state, n),
        level: level(state, n),
        wait: wait(state, n),
    }
}

pub fn phase(state: &Buffer, n: usize) -> Phase
    requires { n < 24 }
    ensures { result ≡ (voice_in state.now n).envelope.phase }
{
    phase_of(state[PHASES + n])
}

// Whether voice n is Idle, and whether its phase has steps.

pub fn is_idle(state: &Buffer, n: usize) -> bool
    requires { n < 24 }
    ensures { result ≡ is_idle (voice_in state.now n).envelope.phase }
{
    state[PHASES + n] == 0
}

pub fn is_active(state: &Buffer, n: usize) -> bool
    requires { n < 24 }
    ensures { result ≡ active (voice_in state.now n).envelope.phase }
{
    (1 <= state[PHASES + n]) & (state[PHASES + n] <= 4)
}

pub fn wait(state: &Buffer, n: usize) -> u32
    requires { n < 24 }
    ensures { result ≡ (voice_in state.now n).envelope.wait }
{
    wide(state[WAITS + n * 2], state[WAITS + n * 2 + 1])
}

pub fn level(state: &Buffer, n: usize) -> u16
    requires { n < 24 }
    ensures { result ≡ (voice_in state.now n).envelope.level }
{
    state[LEVELS + n]
}

// Sample k of voice n.
pub fn sample(state: &Buffer, n: usize, k: usize) -> i16
    requires { (n < 24) × (k < 31) }
    ensures { result ≡ get_or (voice_in state.now n).playing.samples k (pos 0) }
{
    fixed::to_signed(state[SAMPLES + n * 31 + k])
}

// Whether voice n has a block.
pub fn loaded(state: &Buffer, n: usize) -> bool
    requires { n < 24 }
    ensures { result ≡ (voice_in state.now n).playing.loaded }
{
    state[LOADED + n] == 1
}

fn samples(state: &Buffer, n: usize) -> [i16; 31]
    requires { n < 24 }
    ensures { result ≡ list_of (λ k. signed 16 (get_or state.now (524 + n * 31 + k) 0)) 31 }
{
    // by an index: the proof does not follow signed numbers through array::from_fn
    let mut all = [0; 31];
    for k in 0..31usize {
        all[k] = fixed::to_signed(state[SAMPLES + n * 31 + k]);
    }
    all
}

fn source(state: &Buffer, n: usize) -> Source
    requires { n < 24 }
    ensures { result ≡ (voice_in state.now n).source }
{
    Source {
        address: address(state[UNITS + n]),
        repeat: UnitAddress(state[REPEATS + n]),
    }
}

pub fn position(state: &Buffer, n: usize) -> Position
    requires { (n < 24) × ((voice_in state.now n).position.index ≤ 27) }
    ensures { result ≡ (voice_in state.now n).position }
{
    Position {
        counter: state[COUNTERS + n],
        index: state[INDICES + n] as u8,
    }
}

fn playing(state: &Buffer, n: usize) -> Playing
    requires { (n < 24) × Formed state.now }
    ensures { result ≡ (voice_in state.now n).playing }
{
    Playing {
        loaded: loaded(state, n),
        flags: state[FLAGS + n] as u8,
        samples: samples(state, n),
    }
}

// Voice n, copied out.
pub fn voice(state: &Buffer, n: usize) -> Voice
    requires { (n < 24) × Formed state.now × ((voice_in state.now n).position.index ≤ 27) }
    ensures { result ≡ voice_in state.now n }
{
    Voice {
        envelope: envelope(state, n),
        source: source(state, n),
        position: position(state, n),
        playing: playing(state, n),
        ended: state[ENDED + n] == 1,
    }
}

// What follows the voices.

pub fn noise(state: &Buffer) -> Noise
    ensures { result ≡ (state_of state.now).noise }
{
    Noise {
        level: state[NOISE],
        timer: wide(state[TIMER], state[TIMER + 1]),
    }
}

pub fn control(state: &Buffer) -> Control
    ensures { result ≡ (state_of state.now).control }
{
    Control {
        applied: state[APPLIED],
        latch: state[LATCH] == 1,
        doubt: state[DOUBT] == 1,
    }
}

pub fn capture(state: &Buffer) -> u16
    requires { (state_of state.now).capture < 0x400 }
    ensures { result ≡ (state_of state.now).capture }
{
    state[CAPTURE] * 2
}

// The byte address of a halfword whose number stands in two halves.
fn address_of(low: u16, high: u16) -> ByteAddress
    requires { wide_of low high * 2 < 0x80000 }
    ensures { result ≡ record { 0 = wide_of low high * 2 } }
{
    ByteAddress(wide(low, high) * 2)
}

pub fn reverb(state: &Buffer) -> Reverb
    requires { (state_of state.now).reverb.place.0 < 0x80000 }
    ensures { result ≡ (state_of state.now).reverb }
{
    Reverb {
        place: address_of(state[PLACE], state[PLACE + 1]),
        right: state[RIGHT] == 1,
        held: Stereo {
            left: fixed::to_signed(state[HELD]),
            right: fixed::to_signed(state[HELD + 1]),
        },
    }
}

pub fn transfer(state: &Buffer) -> ByteAddress
    requires { (state_of state.now).transfer.0 < 0x80000 }
    ensures { result ≡ (state_of state.now).transfer }
{
    address_of(state[TRANSFER], state[TRANSFER + 1])
}

pub fn tick(state: &Buffer) -> u32
    ensures { result ≡ (state_of state.now).tick }
{
    wide(state[TICK], state[TICK + 1])
}

// A register, by its offset.
pub fn register(state: &Buffer, offset: usize) -> u16
    requires { offset < 512 }
    ensures { result ≡ register_at (state_of state.now).regs offset }
{
    state[REGISTERS + offset / 2]
}

// What accesses watch.
pub fn watch(state: &Buffer) -> Watch
    requires { 0 < (state_of state.now).choices.size }
    ensures { result ≡ watch_of (state_of state.now) }
{
    let spucnt = register(state, 0x1AA);
    let a = soundram::address_of(size(state), UnitAddress(register(state, 0x1A4)));
    let c = control(state);
    Watch {
        armed: (spucnt / 0x8000 % 2 == 1) & (spucnt / 0x40 % 2 == 1),
        halfword: a.0 / 2,
        latch: c.latch,
        doubt: c.doubt,
    }
}

// ---- put

// Where word w of voice n stands, if it comes before the samples.
fn place(n: usize, w: usize) -> usize
    requires { (n < 24) × (w < 11) }
    ensures { (result ≡ place_of n w) × (result < 1268) }
{
    if (2 <= w) & (w <= 3) {
        return WAITS + n * 2 + (w - 2);
    }
    PHASES + w * 24 + n
}

fn put_words(state: &mut Buffer, n: usize, words: &[u16; 11])
    requires { n < 24 }
    ensures { state.new ≡ put_words (λ w. get_or words.now w 0) n 0 state.old 11 }
{
    for (w, word) in words.iter().enumerate() {
        state[place(n, w)] = *word;
    }
}

fn put_samples(state: &mut Buffer, n: usize, samples: &[i16; 31])
    requires { n < 24 }
    ensures { (state.new ≡ put_words (sample_word samples.now) n 11 state.old 31) × Samples samples.now }
{
    for (k, sample) in samples.iter().enumerate() {
        state[SAMPLES + n * 31 + k] = fixed::to_bits(*sample);
    }
}

fn phase_number(p: Phase) -> u16
    ensures { result ≡ phase_number p }
{
    match p {
        Phase::Idle => 0,
        Phase::Attack => 1,
        Phase::Decay => 2,
        Phase::Sustain => 3,
        Phase::Release => 4,
        Phase::Off => 5,
    }
}

// The unit at an address.
fn unit(a: ByteAddress) -> u16
    requires { a.0 < 0x80000 }
    ensures { result ≡ a.0 / 8 }
{
    (a.0 / 8) as u16
}

// Replaces voice n.
pub fn put_voice(state: &mut Buffer, n: usize, v: Voice)
    requires { (n < 24) × Formed state.old × (v.source.address.0 % 8 ≡ 0) × (v.source.address.0 < 0x80000) }
    ensures { Holds state.new (with_voice (state_of state.old) n v) }
{
    let words = [
        phase_number(v.envelope.phase),
        v.envelope.level,
        low(v.envelope.wait),
        high(v.envelope.wait),
        v.position.counter,
        v.position.index as u16,
        unit(v.source.address),
        v.source.repeat.0,
        v.playing.loaded as u16,
        v.playing.flags as u16,
        v.ended as u16,
    ];
    put_words(state, n, &words);
    put_samples(state, n, &v.playing.samples);
}

// Replaces its envelope alone.
pub fn put_envelope(state: &mut Buffer, n: usize, e: Envelope)
    requires { (n < 24) × Formed state.old }
    ensures { Holds state.new (with_voice (state_of state.old) n (with_envelope (voice_in state.old n) e)) }
{
    state[PHASES + n] = phase_number(e.phase);
    state[LEVELS + n] = e.level;
    state[WAITS + n * 2] = low(e.wait);
    state[WAITS + n * 2 + 1] = high(e.wait);
}

// The pitch counter and the sample index of voice n.
pub fn put_position(state: &mut Buffer, n: usize, counter: u16, index: u16)
    requires { (n < 24) × Formed state.old }
    ensures { Holds state.new (with_voice (state_of state.old) n (with_position (voice_in state.old n) counter index)) }
{
    state[COUNTERS + n] = counter;
    state[INDICES + n] = index;
}

// The wait of its envelope.
pub fn put_wait(state: &mut Buffer, n: usize, wait: u32)
    requires { (n < 24) × Formed state.old }
    ensures { Holds state.new (with_voice (state_of state.old) n (with_wait (voice_in state.old n) wait)) }
{
    state[WAITS + n * 2] = low(wait);
    state[WAITS + n * 2 + 1] = high(wait);
}

pub fn put_repeat(state: &mut Buffer, n: usize, value: u16)
    requires { (n < 24) × Formed state.old }
    ensures { Holds state.new (with_voice (state_of state.old) n (with_repeat (voice_in state.old n) value)) }
{
    state[REPEATS + n] = value;
}

pub fn put_register(state: &mut Buffer, i: usize, value: u16)
    requires { (i < 256) × Formed state.old }
    ensures { Holds state.new (with_regs (state_of state.old) (set (state_of state.old).regs i value)) }
{
    state[REGISTERS + i] = value;
}

pub fn put_noise(state: &mut Buffer, noise: Noise)
    requires { Formed state.old }
    ensures { Holds state.new (with_noise (state_of state.old) noise) }
{
    state[NOISE] = noise.level;
    state[TIMER] = low(noise.timer);
    state[TIMER + 1] = high(noise.timer);
}

pub fn put_control(state: &mut Buffer, control: Control)
    requires { Formed state.old }
    ensures { Holds state.new (with_control (state_of state.old) control) }
{
    state[APPLIED] = control.applied;
    state[LATCH] = control.latch as u16;
    state[DOUBT] = control.doubt as u16;
}

// What was watched.
pub fn put_watch(state: &mut Buffer, w: Watch)
    requires { Formed state.old }
    ensures { Holds state.new (watched_of (state_of state.old) w) }
{
    state[LATCH] = w.latch as u16;
    state[DOUBT] = w.doubt as u16;
}

// The reverb's place.
pub fn put_place(state: &mut Buffer, a: ByteAddress)
    requires { Formed state.old × (a.0 % 2 ≡ 0) }
    ensures { Holds state.new (with_place (state_of state.old) a) }
{
    state[PLACE] = low(a.0 / 2);
    state[PLACE + 1] = high(a.0 / 2);
}

pub fn put_transfer(state: &mut Buffer, a: ByteAddress)
    requires { Formed state.old × (a.0 % 2 ≡ 0) }
    ensures { Holds state.new (with_transfer (state_of state.old) a) }
{
    state[TRANSFER] = low(a.0 / 2);
    state[TRANSFER + 1] = high(a.0 / 2);
}

fn put_tail(state: &mut Buffer, words: &[u16; 14])
    ensures { state.new ≡ put_tail (λ i. get_or words.now i 0) 0 state.old 14 }
{
    for (i, word) in words.iter().enumerate() {
        state[NOISE + i] = *word;
    }
}

// What a run of ticks changes besides the voices.
pub fn put_rest(
    state: &mut Buffer,
    noise: Noise,
    control: Control,
    capture: u16,
    reverb: Reverb,
    tick: u32,
)
    requires { Formed state.old × (capture % 2 ≡ 0) × (reverb.place.0 % 2 ≡ 0) }
    ensures { Holds state.new (with_rest (state_of state.old) noise control capture reverb tick) }
{
    let words = [
        noise.level,
        low(noise.timer),
        high(noise.timer),
        control.applied,
        control.latch as u16,
        control.doubt as u16,
        capture / 2,
        low(reverb.place.0 / 2),
        high(reverb.place.0 / 2),
        reverb.right as u16,
        fixed::to_bits(reverb.held.left),
        fixed::to_bits(reverb.held.right),
        low(tick),
        high(tick),
    ];
    put_tail(state, &words);
}

// ---- make

fn clear(state: &mut Buffer)
    ensures { state.new ≡ zeros_of state_length }
{
    state.fill(0);
}

// A fresh state but for its register, its timer and its voices.
fn begin(state: &mut Buffer, size: u32)
    ensures { Holds state.new (with_voices (blank_of size) (state_of state.new).voices) }
{
    clear(state);
    state[0] = TAG;
    state[1] = VERSION;
    state[2] = low(size);
    state[3] = high(size);
}

// Makes every voice a fresh one.
fn put_fresh(state: &mut Buffer)
    requires { Formed state.old }
    ensures { Holds state.new (with_voices (state_of state.old) (replicate 24 fresh_voice)) }
{
    for n in 0..24usize {
        put_voice(state, n, Voice::fresh());
    }
}

// Makes a fresh state for a sound RAM of size bytes, whatever stood in the buffer.
pub fn fresh(state: &mut Buffer, size: u32)
    ensures { Holds state.new (fresh_of size) }
{
    begin(state, size);
    put_register(state, 0xD6, 4);
    put_noise(
        state,
        Noise {
            level: 0,
            timer: 0x20000,
        },
    );
    put_fresh(state);
}
