// The capture: what is played goes to the first 1000h bytes of sound RAM too.
#![tactic(auto)]

ghost use Rattle.std.specs.Prelude.{◌≡◌, ◌<◌};
ghost use Rattle.soundram.specs.Address.{Lent};
ghost use Rattle.soundram.specs.Program.{Does, mem_of};
ghost use Rattle.capture.specs.Capture.{capture_at, capture_both, capture_of, capture_next};

use soundram::{ByteAddress, Watch};
use voices::Captured;

fn capture_at(
    ram: &mut [u8],
    marks: &mut [u8],
    size: u32,
    area: u32,
    place: u16,
    x: i16,
    w: Watch,
) -> Watch
    requires { Lent size ram.old marks.old × (area < 0x1000) × (place < 0x400) }
    ensures { Does (capture_at area place x) (mem_of ram.old marks.old w) tt (mem_of ram.new marks.new result) }
{
    access::write(
        ram,
        marks,
        ByteAddress(area + place as u32),
        fixed::to_bits(x),
        w,
    )
}

// In two areas, 400h apart.
fn capture_both(
    ram: &mut [u8],
    marks: &mut [u8],
    size: u32,
    area: u32,
    place: u16,
    x: i16,
    y: i16,
    w: Watch,
) -> Watch
    requires { Lent size ram.old marks.old × (area < 0xC00) × (place < 0x400) }
    ensures { Does (capture_both area place x y) (mem_of ram.old marks.old w) tt (mem_of ram.new marks.new result) }
{
    let first = capture_at(ram, marks, size, area, place, x, w);
    capture_at(ram, marks, size, area + 0x400, place, y, first)
}

// The CD pair and the amplitudes of voices 1 and 3.
pub fn capture(
    ram: &mut [u8],
    marks: &mut [u8],
    size: u32,
    place: u16,
    left: i16,
    right: i16,
    c: Captured,
    w: Watch,
) -> Watch
    requires { Lent size ram.old marks.old × (place < 0x400) }
    ensures { Does (capture_of place left right c) (mem_of ram.old marks.old w) tt (mem_of ram.new marks.new result) }
{
    let cd = capture_both(ram, marks, size, 0x000, place, left, right, w);
    capture_both(ram, marks, size, 0x800, place, c.first, c.third, cd)
}

// The place of the next.
pub fn next(place: u16) -> u16
    requires { place < 0x400 }
    ensures { result ≡ capture_next place }
{
    (place + 2) % 0x400
}
