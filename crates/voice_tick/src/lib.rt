// One tick of a voice.
#![tactic(auto)]

ghost use Rattle.std.specs.Prelude.{◌≡◌, ◌≤◌, ◌<◌};
ghost use Rattle.soundram.specs.Address.{Lent};
ghost use Rattle.soundram.specs.Program.{Does, mem_of};
ghost use Rattle.voice.specs.Range.{InRange};
ghost use Rattle.voice.specs.Voice.{ready_of, stepped_of, target_of, arrive_of, moves_of, tick_of};

use gauss::Table;
use soundram::{Reader, Watch};
use voice::{Position, Settings, Voice};
use voice_block::Loaded;

// What a tick of a voice gives.
#[derive(Clone, Copy)]
pub struct VoiceTick {
    pub voice: Voice,
    pub amplitude: i16,
    pub watch: Watch,
}

// A voice after its steps, and the sample that they lead to, which may lie past the block's last.
#[derive(Clone, Copy)]
struct Stepped {
    voice: Voice,
    target: u32,
}

// The voice with a block loaded.
fn ready(v: Voice, who: Reader, size: u32, ram: &[u8], marks: &[u8], w: Watch) -> Loaded
    requires { Lent size ram.now marks.now × (v.source.address.0 < size) }
    ensures { Does (ready_of who size v) (mem_of ram.now marks.now w) result.voice (mem_of ram.now marks.now result.watch) }
{
    if v.playing.loaded {
        return Loaded { voice: v, watch: w };
    }
    voice_block::fetch(v, who, size, ram, marks, w)
}

// The envelope's step and the pitch step, with the sample that they lead to.
fn step(v: Voice, s: Settings, below: i16) -> Stepped
    requires { (v.position.counter < 0x1000) × (v.position.index ≤ 27) }
    ensures { (result.voice ≡ stepped_of s below v) × (result.target ≡ target_of s below v) × (result.target < 32) }
{
    let envelope = envelope_tick::tick(v.envelope, s.low, s.high);
    let m = pitch::advance(v.position.counter, pitch::step(s.pitch, s.modulated, below));
    let position = Position {
        counter: m.counter,
        ..v.position
    };
    Stepped {
        voice: Voice {
            envelope,
            position,
            ..v
        },
        target: v.position.index as u32 + m.moves,
    }
}

// At sample i, or past the block's end in the next block.
fn arrive(v: Voice, i: u32, who: Reader, size: u32, ram: &[u8], marks: &[u8], w: Watch) -> Loaded
    requires { Lent size ram.now marks.now × (v.source.address.0 < size) × (i < 32) }
    ensures { Does (arrive_of who size i v) (mem_of ram.now marks.now w) result.voice (mem_of ram.now marks.now result.watch) }
{
    if i <= 27 {
        let position = Position {
            index: i as u8,
            ..v.position
        };
        let voice = Voice { position, ..v };
        return Loaded { voice, watch: w };
    }
    let position = Position {
        index: (i - 28) as u8,
        ..v.position
    };
    let past = Voice { position, ..v };
    voice_block::fetch(voice_block::end(size, past), who, size, ram, marks, w)
}

fn moves(
    v: Voice,
    who: Reader,
    size: u32,
    s: Settings,
    below: i16,
    ram: &[u8],
    marks: &[u8],
    w: Watch,
) -> Loaded
    requires { Lent size ram.now marks.now × InRange size v }
    ensures { Does (moves_of who size s below v) (mem_of ram.now marks.now w) result.voice (mem_of ram.now marks.now result.watch) }
{
    let t = step(v, s, below);
    arrive(t.voice, t.target, who, size, ram, marks, w)
}

// One tick of voice n, with the table of interpolation. Below is the amplitude of the voice below it in this tick, level the noise's.
pub fn tick(
    table: &Table,
    v: Voice,
    n: u8,
    size: u32,
    s: Settings,
    below: i16,
    level: u16,
    ram: &[u8],
    marks: &[u8],
    w: Watch,
) -> VoiceTick
    requires { Lent size ram.now marks.now × InRange size v }
    ensures { Does (tick_of (Reader.Voice n) size s below level v) (mem_of ram.now marks.now w) (record { voice = result.voice; amplitude = result.amplitude }) (mem_of ram.now marks.now result.watch) }
{
    if voice::is_idle(v.envelope.phase) {
        return VoiceTick {
            voice: v,
            amplitude: 0,
            watch: w,
        };
    }
    let first = ready(v, Reader::Voice(n), size, ram, marks, w);
    let amplitude = voice_sound::amplitude(table, s, level, first.voice);
    let last = moves(
        first.voice,
        Reader::Voice(n),
        size,
        s,
        below,
        ram,
        marks,
        first.watch,
    );
    VoiceTick {
        voice: last.voice,
        amplitude,
        watch: last.watch,
    }
}
