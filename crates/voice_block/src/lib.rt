// A voice's block: loaded and decoded, and left by the end rule.
#![tactic(auto)]

ghost use Rattle.std.specs.Prelude.{◌≡◌, ◌++◌, ◌≤◌, ◌<◌, drop};
ghost use Rattle.soundram.specs.Address.{Lent};
ghost use Rattle.soundram.specs.Program.{Does, mem_of};
ghost use Rattle.voice.specs.Voice.{looped_of, filled_of, load_of, next_of, muted_of, ended_of};

use envelope::{Envelope, Phase};
use soundram::{Reader, Watch};
use voice::{Playing, Source, Voice};

// A voice after a load, or none.
#[derive(Clone, Copy)]
pub struct Loaded {
    pub voice: Voice,
    pub watch: Watch,
}

// The last three samples of the block before, then those of the block.
fn joined(before: [i16; 31], block: [i16; 28]) -> [i16; 31]
    ensures { result ≡ drop 28 before ++ block }
{
    let mut out = [0i16; 31];
    out[..3].copy_from_slice(&before[28..]);
    out[3..].copy_from_slice(&block);
    out
}

// The source of a block with these flags, once it is loaded.
fn looped(s: Source, flags: u8) -> Source
    requires { s.address.0 < 0x80000 }
    ensures { result ≡ looped_of s flags }
{
    if flags / 4 % 2 == 1 {
        let repeat = soundram::unit_of(s.address);
        return Source { repeat, ..s };
    }
    s
}

// The voice with the block of these bytes.
fn fill(v: Voice, bytes: [u8; 16]) -> Voice
    requires { v.source.address.0 < 0x80000 }
    ensures { result ≡ filled_of v bytes }
{
    let flags = bytes[1];
    let before = v.playing.samples;
    let block = adpcm::decode(bytes, before[30], before[29]);
    let samples = joined(before, block);
    let source = looped(v.source, flags);
    let playing = Playing {
        loaded: true,
        flags,
        samples,
    };
    Voice {
        playing,
        source,
        ..v
    }
}

// Loads the block at the voice's address.
pub fn fetch(v: Voice, who: Reader, size: u32, ram: &[u8], marks: &[u8], w: Watch) -> Loaded
    requires { Lent size ram.now marks.now × (v.source.address.0 < size) }
    ensures { Does (load_of who size v) (mem_of ram.now marks.now w) result.voice (mem_of ram.now marks.now result.watch) }
{
    let b = access_block::load(ram, marks, who, size, v.source.address, w);
    Loaded {
        voice: fill(v, b.value),
        watch: b.watch,
    }
}

// Where a voice goes past the last sample of a block with these flags.
fn next(size: u32, s: Source, flags: u8) -> Source
    requires { (s.address.0 < size) × (16 ≤ size) × (size ≤ 0x80000) }
    ensures { result ≡ next_of size s flags }
{
    let address = if flags % 2 == 1 {
        soundram::address_of(size, s.repeat)
    } else {
        soundram::forward(size, s.address, 16)
    };
    Source { address, ..s }
}

// The envelope past the last sample of a block with these flags.
fn muted(e: Envelope, flags: u8) -> Envelope
    ensures { result ≡ muted_of e flags }
{
    if (flags % 2 == 1) & !(flags / 2 % 2 == 1) {
        return Envelope {
            phase: Phase::Off,
            level: 0,
            wait: 0,
        };
    }
    e
}

// The end rule.
pub fn end(size: u32, v: Voice) -> Voice
    requires { (v.source.address.0 < size) × (16 ≤ size) × (size ≤ 0x80000) }
    ensures { result ≡ ended_of size v }
{
    let flags = v.playing.flags;
    let envelope = muted(v.envelope, flags);
    let source = next(size, v.source, flags);
    Voice {
        envelope,
        source,
        ended: v.ended | (flags % 2 == 1),
        ..v
    }
}
