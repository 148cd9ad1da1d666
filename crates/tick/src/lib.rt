// A tick of the whole chip, but for its voices: the mix, the capture, the reverb's turn, the pair, and the noise of the next tick.
#![tactic(auto)]

ghost use Rattle.std.specs.Prelude.{◌≡◌, ◌+◌, ◌*◌, ◌<◌, length, pos, ◌+ℤ◌, if◌then◌else◌, slice_index_or, slice_set};
ghost use Rattle.fixed.specs.Range.{In};
ghost use Rattle.fixed.specs.Arithmetic.{saturated};
ghost use Rattle.fixed.specs.Bits.{bit};
ghost use Rattle.soundram.specs.Address.{Lent};
ghost use Rattle.soundram.specs.Program.{Does, mem_of};
ghost use Rattle.registers.specs.Map.{register_at};
ghost use Rattle.voices.specs.Voices.{Volumes, SumsIn, mixed_of};
ghost use Rattle.chip.specs.Range.{CaptureIn, PlaceIn};
ghost use Rattle.chip.specs.State.{base_at};
ghost use Rattle.tick.specs.Tick.{cd_of, mix_of, pair_of, turning_of, input_of, entering_of, place_after, held_of, reverb_after, reverb_of, close_of};
ghost use Rattle.tick.specs.Run.{Finishes};

use chip::Reverb;
use noise::Noise;
use reverb::{Area, DelayLine, Turning};
use soundram::{ByteAddress, UnitAddress, Watch};
use stereo::Stereo;
use voices::Sums;

// What a tick changes beside the voices.
#[derive(Clone, Copy)]
pub struct Rest {
    pub noise: Noise,
    pub applied: u16,
    pub capture: u16,
    pub reverb: Reverb,
    pub tick: u32,
}

// Where a run is: what this tick found, its noise, and what it watched from its start on; the ticks that reported.
#[derive(Clone, Copy)]
pub struct Going {
    pub rest: Rest,
    pub noise: Noise,
    pub watch: Watch,
    pub irq: usize,
    pub doubt: usize,
}

// The end of a tick.
#[derive(Clone, Copy)]
struct Closed {
    rest: Rest,
    pair: Stereo<i16>,
    watch: Watch,
}

// The reverb after its turn.
#[derive(Clone, Copy)]
struct Turned {
    reverb: Reverb,
    watch: Watch,
}

// Bit k of SPUCNT.
fn control(regs: &[u16; 256], k: u32) -> bool
    requires { k < 16 }
    ensures { result ≡ bit k (register_at regs.now 0x1AA) }
{
    (registers::at(regs, 0x1AA) >> k) % 2 == 1
}

// ---- mix

// A side of the CD, after its volume.
fn cd(regs: &[u16; 256], offset: usize, x: i16) -> i32
    requires { offset < 512 }
    ensures { (result ≡ cd_of regs.now offset x) × In 0x8000 0x8000 result }
{
    if control(regs, 0) {
        let volume = fixed::to_signed(registers::at(regs, offset));
        return fixed::product(x as i32, volume);
    }
    0
}

// The voices and the reverb, where SPUCNT lets them be heard.
fn heard(on: bool, total: i32, held: i16) -> i32
    ensures { (result ≡ (if on then saturated total +ℤ held else pos 0)) × In 0x10000 0xFFFE result }
{
    if on {
        return fixed::saturate(total) as i32 + held as i32;
    }
    0
}

fn mix(regs: &[u16; 256], total: i32, held: i16, cd: i32, main: usize) -> i16
    requires { In 0x8000 0x8000 cd × (main < 512) }
    ensures { result ≡ mix_of regs.now total held cd main }
{
    let sum = fixed::saturate(heard(control(regs, 14), total, held) + cd);
    let volume = fixed::volume(registers::at(regs, main));
    fixed::saturate(fixed::product(sum as i32, volume))
}

// The pair, of the sums, the held outputs and the CD.
fn mixed(regs: &[u16; 256], held: Stereo<i16>, sums: Sums, left: i16, right: i16) -> Stereo<i16>
    ensures { result ≡ pair_of regs.now held sums left right }
{
    Stereo {
        left: mix(regs, sums.dry.left, held.left, cd(regs, 0x1B0, left), 0x180),
        right: mix(
            regs,
            sums.dry.right,
            held.right,
            cd(regs, 0x1B2, right),
            0x182,
        ),
    }
}

// ---- reverb

// How the turn of a side is made.
fn turning(regs: &[u16; 256], right: bool) -> Turning
    ensures { result ≡ turning_of regs.now right }
{
    let on = control(regs, 7);
    let volume = registers::at(regs, 0x184 + reverb::side(right));
    Turning {
        right,
        counted: !(!on & (volume == 0)),
        writes: on,
    }
}

fn input(regs: &[u16; 256], wet: i32, cd: i32) -> i16
    requires { In 0xC0000 0xC0000 wet × In 0x8000 0x8000 cd }
    ensures { result ≡ input_of regs.now wet cd }
{
    if control(regs, 2) {
        return fixed::saturate(wet + cd);
    }
    fixed::saturate(wet)
}

// What enters the reverb, of the turn's side.
fn entering(regs: &[u16; 256], rightward: bool, sums: Sums, left: i16, right: i16) -> i16
    requires { SumsIn 24 sums }
    ensures { result ≡ entering_of regs.now rightward sums left right }
{
    if rightward {
        return input(regs, sums.wet.right, cd(regs, 0x1B2, right));
    }
    input(regs, sums.wet.left, cd(regs, 0x1B0, left))
}

fn place_after(size: u32, base: u32, right: bool, place: u32) -> u32
    requires { place < 0x80000 }
    ensures { result ≡ place_after size base right place }
{
    if !right {
        return place;
    }
    if place + 2 == size {
        return base;
    }
    place + 2
}

fn hold(right: bool, held: Stereo<i16>, out: i16) -> Stereo<i16>
    ensures { result ≡ held_of right held out }
{
    if right {
        return Stereo { right: out, ..held };
    }
    Stereo { left: out, ..held }
}

fn after(size: u32, base: u32, r: Reverb, out: i16) -> Reverb
    requires { r.place.0 < 0x80000 }
    ensures { result ≡ reverb_after size base r out }
{
    let held = hold(r.right, r.held, out);
    Reverb {
        place: ByteAddress(place_after(size, base, r.right, r.place.0)),
        right: !r.right,
        held,
    }
}

// The turn of this tick.
fn turn(
    regs: &[u16; 256],
    size: u32,
    r: Reverb,
    sums: Sums,
    left: i16,
    right: i16,
    ram: &mut [u8],
    marks: &mut [u8],
    w: Watch,
) -> Turned
    requires { Lent size ram.old marks.old × PlaceIn size (base_at size regs.now).0 r.place.0 × SumsIn 24 sums }
    ensures { Does (reverb_of regs.now size r sums left right) (mem_of ram.old marks.old w) result.reverb (mem_of ram.new marks.new result.watch) }
{
    let base = soundram::address_of(size, UnitAddress(registers::at(regs, 0x1A2)));
    let line = DelayLine {
        area: Area {
            size,
            base: base.0,
            place: r.place.0,
        },
        turning: turning(regs, r.right),
    };
    let x = entering(regs, r.right, sums, left, right);
    let out = reverb_turn::turn(regs, ram, marks, line, x, w);
    let reverb = after(size, base.0, r, out.value);
    let watch = out.watch;
    Turned { reverb, watch }
}

// ---- the end of a tick, once its voices have played

// n is this tick's noise.
fn close(
    regs: &[u16; 256],
    size: u32,
    r: Rest,
    n: Noise,
    volumes: &[i16; 96],
    amplitudes: [i16; 24],
    ram: &mut [u8],
    marks: &mut [u8],
    left: i16,
    right: i16,
    w: Watch,
) -> Closed
    requires { Lent size ram.old marks.old × CaptureIn r.capture × PlaceIn size (base_at size regs.now).0 r.reverb.place.0 × Volumes regs.now volumes.now }
    ensures { Does (close_of regs.now size r n (mixed_of regs.now amplitudes 24) left right) (mem_of ram.old marks.old w) (record { pair = result.pair; rest = result.rest }) (mem_of ram.new marks.new result.watch) }
{
    let sums = voices_mix::mix(regs, volumes, amplitudes);
    let captured = capture::capture(ram, marks, size, r.capture, left, right, sums.captured, w);
    let t = turn(
        regs, size, r.reverb, sums, left, right, ram, marks, captured,
    );
    let pair = mixed(regs, r.reverb.held, sums, left, right);
    let rest = Rest {
        noise: n,
        applied: registers::at(regs, 0x1AA) % 0x40,
        capture: capture::next(r.capture),
        reverb: t.reverb,
        tick: r.tick.wrapping_add(1),
    };
    Closed {
        rest,
        pair,
        watch: t.watch,
    }
}

// Tick k if it reported, otherwise the one that did before it.
fn reported(here: bool, k: usize, before: usize) -> usize
    ensures { result ≡ (if here then k else before) }
{
    if here {
        return k;
    }
    before
}

// A sample of the CD, 0 past its end.
fn cd_at(cd: &[i16], i: usize) -> i16
    ensures { result ≡ slice_index_or cd.now i (pos 0) }
{
    cd.get(i).copied().unwrap_or(0)
}

fn put_pair(out: &mut [i16], i: usize, pair: Stereo<i16>)
    requires { i + 1 < length out.old }
    ensures { out.new ≡ slice_set (slice_set out.old i pair.left) (i + 1) pair.right }
{
    out[i] = pair.left;
    out[i + 1] = pair.right;
}

// Tick k ends: its pair goes to the buffer, and the next tick's noise is made.
pub fn finish(
    regs: &[u16; 256],
    size: u32,
    g: Going,
    volumes: &[i16; 96],
    amplitudes: [i16; 24],
    ram: &mut [u8],
    marks: &mut [u8],
    cd: &[i16],
    out: &mut [i16],
    k: usize,
    w: Watch,
) -> Going
    requires { Lent size ram.old marks.old × CaptureIn g.rest.capture × PlaceIn size (base_at size regs.now).0 g.rest.reverb.place.0 × (k * 2 + 1 < length out.old) × Volumes regs.now volumes.now }
    ensures { Finishes regs.now size g amplitudes cd.now k (mem_of ram.old marks.old w) out.old result (mem_of ram.new marks.new result.watch) out.new }
{
    let i = k * 2;
    let left = cd_at(cd, i);
    let right = cd_at(cd, i + 1);
    let c = close(
        regs, size, g.rest, g.noise, volumes, amplitudes, ram, marks, left, right, w,
    );
    put_pair(out, i, c.pair);
    Going {
        rest: c.rest,
        noise: noise::tick(c.rest.noise, registers::at(regs, 0x1AA)),
        watch: c.watch,
        irq: reported(c.watch.latch & !g.watch.latch, k, g.irq),
        doubt: reported(c.watch.doubt & !g.watch.doubt, k, g.doubt),
    }
}
