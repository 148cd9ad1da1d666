// The command that a line gives: the lines of the core's calls. None is a line that is no command. Of a field that was read and
// passed its test, the remainder is the number itself.
#![tactic(auto)]

ghost use Rattle.std.specs.Prelude.{◌≡◌};
ghost use Rattle.lines.specs.Line.{when, is_hex};
ghost use Rattle.commands.specs.Command.{halfword, write_of, read_of, inward_of, values_of, outward_of, plain_of, tick_of, view_of, reset_of};

use lines::{Field, Line};

#[derive(Clone, Copy)]
pub enum Command {
    // A blank line or a comment.
    Quiet,
    Write {
        offset: u16,
        value: u16,
    },
    Read {
        offset: u16,
    },
    // So many halfwords, those of the line's fields after the first.
    Inward {
        count: usize,
    },
    Outward {
        count: u32,
    },
    Tick {
        floats: bool,
        count: u32,
        left: i16,
        right: i16,
    },
    View {
        address: u32,
    },
    Reset,
    Ram {
        address: u32,
        count: u32,
    },
    Marks {
        address: u32,
        count: u32,
    },
    Fill {
        address: u32,
        count: u32,
        byte: u8,
    },
}

// The halfword of a field's digits.
fn halfword(f: Field) -> u16
    ensures { result ≡ halfword f }
{
    (f.value % 0x10000) as u16
}

// The halfword of a field of hex digits, from least to most of them.
fn halfword_within(f: Field, least: u64, most: u64) -> Option<u16>
    ensures { result ≡ when (is_hex least most f) (halfword f) }
{
    if f.is_hex(least, most) {
        Some(halfword(f))
    } else {
        None
    }
}

pub fn write_line(l: Line) -> Option<Command>
    ensures { result ≡ write_of l }
{
    if l.count != 3 {
        return None;
    }
    Some(Command::Write {
        offset: halfword_within(l.fields[1], 1, 4)?,
        value: halfword_within(l.fields[2], 1, 4)?,
    })
}

pub fn read_line(l: Line) -> Option<Command>
    ensures { result ≡ read_of l }
{
    if l.count != 2 {
        return None;
    }
    let offset = halfword_within(l.fields[1], 1, 4)?;
    Some(Command::Read { offset })
}

pub fn inward_line(l: Line) -> Option<Command>
    ensures { result ≡ inward_of l }
{
    let n = l.count;
    if (2 <= n) & ((n <= 34) & l.halfwords) {
        return Some(Command::Inward { count: n - 1 });
    }
    None
}

// The halfwords of such a line: as many of the 33 as its command says.
pub fn values(l: Line) -> [u16; 33]
    ensures { result ≡ values_of l.fields 33 }
{
    let mut out = [0u16; 33];
    for (n, f) in l.fields[1..].iter().enumerate() {
        out[n] = halfword(*f);
    }
    out
}

pub fn outward_line(l: Line) -> Option<Command>
    ensures { result ≡ outward_of l }
{
    if l.count != 2 {
        return None;
    }
    let count = l.fields[1].count_within(0, 64)?;
    Some(Command::Outward { count })
}

// Ticks with no CD samples.
pub fn plain_line(floats: bool, l: Line) -> Option<Command>
    ensures { result ≡ plain_of floats l }
{
    if l.count != 2 {
        return None;
    }
    Some(Command::Tick {
        floats,
        count: l.fields[1].count_within(0, 65535)?,
        left: 0,
        right: 0,
    })
}

pub fn tick_line(floats: bool, l: Line) -> Option<Command>
    ensures { result ≡ tick_of floats l }
{
    if l.count != 4 {
        return plain_line(floats, l);
    }
    let count = l.fields[1].count_within(0, 65535)?;
    let left = halfword_within(l.fields[2], 4, 4)?;
    let right = halfword_within(l.fields[3], 4, 4)?;
    Some(Command::Tick {
        floats,
        count,
        left: fixed::to_signed(left),
        right: fixed::to_signed(right),
    })
}

pub fn view_line(l: Line) -> Option<Command>
    ensures { result ≡ view_of l }
{
    if l.count != 2 {
        return None;
    }
    let address = l.fields[1].hex_within(1, 8)?;
    Some(Command::View { address })
}

pub fn reset_line(l: Line) -> Option<Command>
    ensures { result ≡ reset_of l }
{
    if l.count != 1 {
        return None;
    }
    Some(Command::Reset)
}
