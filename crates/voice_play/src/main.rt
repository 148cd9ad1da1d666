// Plays blocks through one voice and writes, for each tick, its amplitude, level, end flag and the doubt. The expected output is that of the
// reference, reference/voice_play.py, which lists the same blocks and plays.
#![tactic(auto)]

ghost use Rattle.voice.specs.Range.{InRange};

use gauss::Table;
use soundram::{ByteAddress, UnitAddress, Watch};
use std::io;
use voice::{Settings, Voice};

const SIZE: u32 = 0x10000;

// A block is its header, its flags, and 14 bytes from the seed on.
#[derive(Clone, Copy)]
struct Block {
    address: u16,
    header: u8,
    flags: u8,
    seed: u8,
}

const BLOCKS: [Block; 8] = [
    Block {
        address: 0x1000,
        header: 0x12,
        flags: 0x00,
        seed: 0x31,
    },
    Block {
        address: 0x1010,
        header: 0x25,
        flags: 0x01,
        seed: 0x77,
    },
    Block {
        address: 0x2000,
        header: 0x33,
        flags: 0x04,
        seed: 0x5A,
    },
    Block {
        address: 0x2010,
        header: 0x44,
        flags: 0x02,
        seed: 0xC3,
    },
    Block {
        address: 0x2020,
        header: 0x18,
        flags: 0x03,
        seed: 0x09,
    },
    Block {
        address: 0xFFF8,
        header: 0x09,
        flags: 0x03,
        seed: 0x88,
    },
    Block {
        address: 0x4000,
        header: 0x5D,
        flags: 0x06,
        seed: 0xE1,
    },
    Block {
        address: 0x4010,
        header: 0x70,
        flags: 0x03,
        seed: 0x42,
    },
];

#[derive(Clone, Copy)]
enum How {
    Plain,
    Modulated,
    Noise,
    KeyOffAt30,
}

#[derive(Clone, Copy)]
struct Play {
    name: &'static str,
    start: u16,
    pitch: u16,
    low: u16,
    high: u16,
    ticks: u32,
    how: How,
}

const PLAYS: [Play; 14] = [
    Play {
        name: "one_shot",
        start: 0x200,
        pitch: 0x1000,
        low: 0x00FF,
        high: 0x0000,
        ticks: 70,
        how: How::Plain,
    },
    Play {
        name: "loop",
        start: 0x400,
        pitch: 0x2800,
        low: 0x80C5,
        high: 0x5FC0,
        ticks: 120,
        how: How::Plain,
    },
    Play {
        name: "wrapped",
        start: 0x1FFF,
        pitch: 0x1000,
        low: 0x000F,
        high: 0x0000,
        ticks: 40,
        how: How::Plain,
    },
    Play {
        name: "pitch_0",
        start: 0x400,
        pitch: 0x0000,
        low: 0x2403,
        high: 0x0000,
        ticks: 8,
        how: How::Plain,
    },
    Play {
        name: "pitch_3fff",
        start: 0x400,
        pitch: 0x3FFF,
        low: 0x000F,
        high: 0x0000,
        ticks: 40,
        how: How::Plain,
    },
    Play {
        name: "pitch_4000",
        start: 0x400,
        pitch: 0x4000,
        low: 0x000F,
        high: 0x0000,
        ticks: 40,
        how: How::Plain,
    },
    Play {
        name: "pitch_4001",
        start: 0x400,
        pitch: 0x4001,
        low: 0x000F,
        high: 0x0000,
        ticks: 20,
        how: How::Plain,
    },
    Play {
        name: "modulated",
        start: 0x400,
        pitch: 0x1000,
        low: 0x000F,
        high: 0x0000,
        ticks: 60,
        how: How::Modulated,
    },
    Play {
        name: "glitch",
        start: 0x400,
        pitch: 0x9000,
        low: 0x000F,
        high: 0x0000,
        ticks: 60,
        how: How::Modulated,
    },
    Play {
        name: "noise",
        start: 0x400,
        pitch: 0x1000,
        low: 0x000F,
        high: 0x0000,
        ticks: 20,
        how: How::Noise,
    },
    Play {
        name: "filters",
        start: 0x800,
        pitch: 0x1800,
        low: 0xA0FF,
        high: 0xC1E5,
        ticks: 90,
        how: How::Plain,
    },
    Play {
        name: "release",
        start: 0x400,
        pitch: 0x1000,
        low: 0x000F,
        high: 0x0021,
        ticks: 60,
        how: How::KeyOffAt30,
    },
    Play {
        name: "unloaded",
        start: 0x600,
        pitch: 0x1000,
        low: 0x000F,
        high: 0x0000,
        ticks: 40,
        how: How::Plain,
    },
    Play {
        name: "runs_out",
        start: 0x201,
        pitch: 0x3000,
        low: 0x000F,
        high: 0x0000,
        ticks: 60,
        how: How::Plain,
    },
];

const UNWATCHED: Watch = Watch {
    armed: false,
    halfword: 0,
    latch: false,
    doubt: false,
};

#[derive(Drop)]
struct Memory {
    ram: [u8; 65536],
    marks: [u8; 4096],
}

// A voice between two ticks, and what its reads noticed.
#[derive(Clone, Copy)]
struct Played {
    voice: Voice,
    watch: Watch,
    ghost in_range: { InRange 0x10000 voice },
}

// The byte after another in a block's data.
fn after(x: u8) -> u8 {
    ((x as u32 * 5 + 17) % 256) as u8
}

fn put_block(memory: &mut Memory, block: &Block) {
    let first = ByteAddress(block.address as u32);
    let mut low = block.header;
    let mut high = block.flags;
    let mut x = block.seed;
    for i in 0..8u32 {
        let at = soundram::forward(SIZE, first, i * 2);
        let halfword = u16::from_le_bytes([low, high]);
        access::write(&mut memory.ram, &mut memory.marks, at, halfword, UNWATCHED);
        low = x;
        high = after(low);
        x = after(high);
    }
}

fn settings(play: &Play) -> Settings {
    Settings {
        pitch: play.pitch,
        low: play.low,
        high: play.high,
        modulated: matches!(play.how, How::Modulated),
        noise: matches!(play.how, How::Noise),
    }
}

// The amplitude of the voice below in tick t, and the noise level.
fn below(t: u32) -> i16 {
    fixed::to_signed(((t % 1000 * 4099 + 0x8000) % 0x10000) as u16)
}

fn noise(t: u32) -> u16 {
    ((t % 1000 * 9973 + 5) % 0x10000) as u16
}

fn start(play: &Play) -> Played {
    Played {
        voice: voice::key_on(SIZE, UnitAddress(play.start), play.low, play.high),
        watch: UNWATCHED,
    }
}

// Key off, in the play that has one.
fn keyed(before: Played, play: &Play, t: u32) -> Played {
    if matches!(play.how, How::KeyOffAt30) && t == 30 {
        return Played {
            voice: voice::key_off(before.voice, play.low, play.high),
            watch: before.watch,
        };
    }
    before
}

// Tick t of a play, and its line.
fn tick(
    rt: &impl Print,
    table: &Table,
    before: Played,
    play: &Play,
    t: u32,
    memory: &Memory,
) -> io::Result<Played> {
    let Played { voice, watch } = keyed(before, play, t);
    let r = voice_tick::tick(
        table,
        voice,
        0,
        SIZE,
        settings(play),
        below(t),
        noise(t),
        &memory.ram,
        &memory.marks,
        watch,
    );
    println!(rt;
        "{} {} {} {}",
        r.amplitude, r.voice.envelope.level, r.voice.ended as u8, r.watch.doubt as u8
    )?;
    Ok(Played {
        voice: r.voice,
        watch: r.watch,
    })
}

fn run(rt: &impl Print, table: &Table, play: &Play, memory: &Memory) -> io::Result<()> {
    println!(rt; "play {}", play.name)?;
    let mut played = start(play);
    for t in 0..play.ticks {
        played = tick(rt, table, played, play, t, memory)?;
    }
    Ok(())
}

fn main(rt: HostRuntime) -> io::Result<()> {
    let mut memory = Memory {
        ram: [0; 65536],
        marks: [0; 4096],
    };
    for block in &BLOCKS {
        put_block(&mut memory, block);
    }
    let table = Table::new();
    for play in &PLAYS {
        run(&rt, &table, play, &memory)?;
    }
    Ok(())
}
