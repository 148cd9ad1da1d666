// One voice: its block, its place in it, its envelope; key on and off. What it does in a tick is defined here too.
#![tactic(auto)]

ghost use Rattle.std.specs.Prelude.{◌≡◌, ◌<◌};
ghost use Rattle.voice.specs.Voice.{fresh as fresh_voice, keyed_on, keyed_off, is_idle, goes_off};

use envelope::{Envelope, Phase};
use soundram::{ByteAddress, UnitAddress};

// Where a voice plays: the block that it plays or will load next, and the unit that it goes to at a block with the end flag.
#[derive(Clone, Copy)]
pub struct Source {
    pub address: ByteAddress,
    pub repeat: UnitAddress,
}

// The place between samples, and the sample within the block.
#[derive(Clone, Copy)]
pub struct Position {
    pub counter: u16,
    pub index: u8,
}

// The block that plays: its loop flags, the three samples before it and its 28.
#[derive(Clone, Copy)]
pub struct Playing {
    pub loaded: bool,
    pub flags: u8,
    pub samples: [i16; 31],
}

#[derive(Clone, Copy)]
pub struct Voice {
    pub envelope: Envelope,
    pub source: Source,
    pub position: Position,
    pub playing: Playing,
    pub ended: bool,
}

// What the registers say of a voice.
#[derive(Clone, Copy)]
pub struct Settings {
    pub pitch: u16,
    pub low: u16,
    pub high: u16,
    pub modulated: bool,
    pub noise: bool,
}

impl Voice {
    // The voice of a fresh state, from which key on begins too.
    pub fn fresh() -> Self
        ensures { result ≡ fresh_voice }
    {
        Voice {
            envelope: Envelope {
                phase: Phase::Idle,
                level: 0,
                wait: 0,
            },
            source: Source {
                address: ByteAddress(0),
                repeat: UnitAddress(0),
            },
            position: Position {
                counter: 0,
                index: 0,
            },
            playing: Playing {
                loaded: false,
                flags: 0,
                samples: [0; 31],
            },
            ended: false,
        }
    }
}

pub fn key_on(size: u32, start: UnitAddress, low: u16, high: u16) -> Voice
    requires { 0 < size }
    ensures { result ≡ keyed_on size start low high }
{
    let fresh = Voice::fresh();
    let envelope = envelope_tick::enter(Phase::Attack, fresh.envelope.level, low, high);
    let source = Source {
        address: soundram::address_of(size, start),
        repeat: start,
    };
    Voice {
        envelope,
        source,
        ..fresh
    }
}

pub fn goes_off(phase: Phase) -> bool
    ensures { result ≡ goes_off phase }
{
    matches!(phase, Phase::Attack | Phase::Decay | Phase::Sustain)
}

pub fn key_off(v: Voice, low: u16, high: u16) -> Voice
    ensures { result ≡ keyed_off v low high }
{
    if goes_off(v.envelope.phase) {
        let envelope = envelope_tick::enter(Phase::Release, v.envelope.level, low, high);
        return Voice { envelope, ..v };
    }
    v
}

// A voice in Off is not Idle: it still reads and moves.
pub fn is_idle(phase: Phase) -> bool
    ensures { result ≡ is_idle phase }
{
    matches!(phase, Phase::Idle)
}
