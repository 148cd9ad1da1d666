// The reverb: its part of sound RAM, read and written. A turn of one side is defined here too.
#![tactic(auto)]

ghost use Rattle.std.specs.Prelude.{◌≡◌, ◌%◌, ◌≤◌, ◌<◌, pos, ◌-ℤ◌};
ghost use Rattle.soundram.specs.Address.{Lent};
ghost use Rattle.soundram.specs.Program.{Does, mem_of};
ghost use Rattle.reverb.specs.Reverb.{address_at, AreaIn, side_of, who_of, fetch as fetching, store as storing};

use soundram::{ByteAddress, Reader, Seen, Watch};

// The reverb's part of sound RAM, from its base to the end, and the place in it that moves.
#[derive(Clone, Copy)]
pub struct Area {
    pub size: u32,
    pub base: u32,
    pub place: u32,
}

// How a turn is made: of which side; whether its reads count; whether it writes.
#[derive(Clone, Copy)]
pub struct Turning {
    pub right: bool,
    pub counted: bool,
    pub writes: bool,
}

// What a turn reads and writes: an area that lies in sound RAM with its place, in the way of the turn.
#[derive(Clone, Copy)]
pub struct DelayLine {
    pub area: Area,
    pub turning: Turning,
    pub ghost inside: { AreaIn area },
}

// A remainder that mostly needs no division.
fn remainder(n: u32, span: u32) -> u32
    requires { 0 < span }
    ensures { (result ≡ n % span) × (result < span) }
{
    if n < span { n } else { n % span }
}

// How far the side's register lies from the left one of a pair.
pub fn side(right: bool) -> usize
    ensures { (result ≡ side_of right) × (result ≤ 2) }
{
    if right { 2 } else { 0 }
}

fn who(right: bool) -> Reader
    ensures { result ≡ who_of right }
{
    if right {
        Reader::ReverbRight
    } else {
        Reader::ReverbLeft
    }
}

impl DelayLine {
    // Where the displacement lies that is `back` bytes less than `bytes`.
    fn address(self, bytes: u32, back: u32) -> ByteAddress
        requires { (bytes < 0x80000) × (back < 0x80000) }
        ensures { (result ≡ address_at self.area (pos bytes -ℤ pos back)) × (result.0 < self.area.size) }
    {
        let a = self.area;
        let span = a.size - a.base;
        let k = a.place - a.base + bytes;
        if back <= k {
            ByteAddress(a.base + remainder(k - back, span))
        } else {
            ByteAddress(a.base + (span - 1 - remainder(back - k - 1, span)))
        }
    }

    // The halfword where the displacement leads, less `back` bytes.
    pub fn fetch(self, ram: &[u8], marks: &[u8], bytes: u32, back: u32, w: Watch) -> Seen<i16>
        requires { Lent self.area.size ram.now marks.now × (bytes < 0x80000) × (back < 0x80000) }
        ensures { Does (fetching self.area self.turning (pos bytes -ℤ pos back)) (mem_of ram.now marks.now w) result.value (mem_of ram.now marks.now result.watch) }
    {
        let t = self.turning;
        let got = access::read(
            ram,
            marks,
            who(t.right),
            t.counted,
            self.address(bytes, back),
            w,
        );
        Seen {
            value: fixed::to_signed(got.value),
            watch: got.watch,
        }
    }

    // A halfword stored there, if the turn writes.
    pub fn store(self, ram: &mut [u8], marks: &mut [u8], bytes: u32, x: i16, w: Watch) -> Watch
        requires { Lent self.area.size ram.old marks.old × (bytes < 0x80000) }
        ensures { Does (storing self.area self.turning (pos bytes) x) (mem_of ram.old marks.old w) tt (mem_of ram.new marks.new result) }
    {
        if self.turning.writes {
            access::write(ram, marks, self.address(bytes, 0), fixed::to_bits(x), w)
        } else {
            w
        }
    }
}
