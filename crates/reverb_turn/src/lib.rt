// One turn of the reverb: reflections, combs, all-passes.
#![tactic(auto)]

ghost use Rattle.std.specs.Prelude.{◌≡◌, ◌+◌, ◌<◌, pos, ◌+ℤ◌, ◌-ℤ◌};
ghost use Rattle.fixed.specs.Arithmetic.{saturated, product_of};
ghost use Rattle.fixed.specs.Range.{In};
ghost use Rattle.soundram.specs.Address.{Lent};
ghost use Rattle.soundram.specs.Program.{Does, mem_of};
ghost use Rattle.reverb.specs.Reverb.{side_of, fetch as fetching, volume_at, bytes_at, reflected_of, combed_of, reflection as reflecting, combs as combing, all_pass, reflections_of, all_passes, turn_of};

use reverb::DelayLine;
use soundram::{Seen, Watch};

// The displacement that a register holds.
fn bytes(regs: &[u16; 256], offset: usize) -> u32
    requires { offset < 512 }
    ensures { (result ≡ bytes_at regs.now offset) × (result < 0x80000) }
{
    registers::at(regs, offset) as u32 * 8
}

// The volume that a register holds.
fn volume(regs: &[u16; 256], offset: usize) -> i16
    requires { offset < 512 }
    ensures { result ≡ volume_at regs.now offset }
{
    fixed::to_signed(registers::at(regs, offset))
}

// A sum times it, and a sample times it. The sum of four combs needs the smaller range of the second: one function with both would have to be told the range.

fn scaled(regs: &[u16; 256], x: i32, offset: usize) -> i32
    requires { In 0x20000 0x20000 x × (offset < 512) }
    ensures { (result ≡ product_of x (volume_at regs.now offset)) × In 0x20000 0x20000 result }
{
    fixed::product(x, volume(regs, offset))
}

fn scaled_sample(regs: &[u16; 256], x: i16, offset: usize) -> i32
    requires { offset < 512 }
    ensures { (result ≡ product_of x (volume_at regs.now offset)) × In 0x8000 0x8000 result }
{
    fixed::product(x as i32, volume(regs, offset))
}

fn reflected(regs: &[u16; 256], input: i32, a: i16, b: i16, c: i16) -> i16
    requires { In 0x8000 0x8000 input }
    ensures { result ≡ reflected_of regs.now input a b c }
{
    let change = scaled(
        regs,
        input + scaled_sample(regs, a, 0x1CE) - b as i32,
        0x1C4,
    );
    fixed::saturate(change + c as i32)
}

// Of the registers that hold m and d. The formula's two reads of one halfword are one here: the second finds what the first did.
fn reflection(
    regs: &[u16; 256],
    ram: &mut [u8],
    marks: &mut [u8],
    line: DelayLine,
    input: i32,
    m: usize,
    d: usize,
    w: Watch,
) -> Watch
    requires { Lent line.area.size ram.old marks.old × In 0x8000 0x8000 input × (m < 512) × (d < 512) }
    ensures { Does (reflecting regs.now line.area line.turning input m d) (mem_of ram.old marks.old w) tt (mem_of ram.new marks.new result) }
{
    let to = bytes(regs, m);
    let a = line.fetch(ram, marks, bytes(regs, d), 0, w);
    let b = line.fetch(ram, marks, to, 2, a.watch);
    let x = reflected(regs, input, a.value, b.value, b.value);
    line.store(ram, marks, to, x, b.watch)
}

fn combed(regs: &[u16; 256], a: i16, b: i16, c: i16, d: i16) -> i32
    ensures { (result ≡ combed_of regs.now a b c d) × In 0x20000 0x20000 result }
{
    scaled_sample(regs, a, 0x1C6)
        + scaled_sample(regs, b, 0x1C8)
        + scaled_sample(regs, c, 0x1CA)
        + scaled_sample(regs, d, 0x1CC)
}

// What a comb reads: of a pair of registers, the turn's own.
fn comb(
    regs: &[u16; 256],
    ram: &[u8],
    marks: &[u8],
    line: DelayLine,
    offset: usize,
    w: Watch,
) -> Seen<i16>
    requires { Lent line.area.size ram.now marks.now × (offset < 510) }
    ensures { Does (fetching line.area line.turning (pos (bytes_at regs.now (offset + side_of line.turning.right)))) (mem_of ram.now marks.now w) result.value (mem_of ram.now marks.now result.watch) }
{
    let own = offset + reverb::side(line.turning.right);
    line.fetch(ram, marks, bytes(regs, own), 0, w)
}

fn combs(regs: &[u16; 256], ram: &[u8], marks: &[u8], line: DelayLine, w: Watch) -> Seen<i32>
    requires { Lent line.area.size ram.now marks.now }
    ensures { Does (combing regs.now line.area line.turning) (mem_of ram.now marks.now w) result.value (mem_of ram.now marks.now result.watch) × In 0x20000 0x20000 result.value }
{
    let a = comb(regs, ram, marks, line, 0x1D8, w);
    let b = comb(regs, ram, marks, line, 0x1DC, a.watch);
    let c = comb(regs, ram, marks, line, 0x1E8, b.watch);
    let d = comb(regs, ram, marks, line, 0x1EC, c.watch);
    let value = combed(regs, a.value, b.value, c.value, d.value);
    Seen {
        value,
        watch: d.watch,
    }
}

// What an all-pass stores, and what it gives.

fn passed(regs: &[u16; 256], out: i32, a: i16, v: usize) -> i16
    requires { In 0x20000 0x20000 out × (v < 512) }
    ensures { result ≡ saturated (out -ℤ product_of a (volume_at regs.now v)) }
{
    fixed::saturate(out - scaled_sample(regs, a, v))
}

fn fed(regs: &[u16; 256], x: i16, b: i16, v: usize) -> i32
    requires { v < 512 }
    ensures { (result ≡ product_of x (volume_at regs.now v) +ℤ b) × In 0x20000 0x20000 result }
{
    scaled_sample(regs, x, v) + b as i32
}

// Of the registers that hold v, m and d.
fn all_pass(
    regs: &[u16; 256],
    ram: &mut [u8],
    marks: &mut [u8],
    line: DelayLine,
    v: usize,
    m: usize,
    d: usize,
    out: Seen<i32>,
) -> Seen<i32>
    requires { Lent line.area.size ram.old marks.old × In 0x20000 0x20000 out.value × (v < 512) × (m < 512) × (d < 512) }
    ensures { Does (all_pass regs.now line.area line.turning v m d out.value) (mem_of ram.old marks.old out.watch) result.value (mem_of ram.new marks.new result.watch) × In 0x20000 0x20000 result.value }
{
    let to = bytes(regs, m);
    let back = bytes(regs, d);
    let a = line.fetch(ram, marks, to, back, out.watch);
    let x = passed(regs, out.value, a.value, v);
    let stored = line.store(ram, marks, to, x, a.watch);
    let b = line.fetch(ram, marks, to, back, stored);
    let value = fed(regs, x, b.value, v);
    Seen {
        value,
        watch: b.watch,
    }
}

// What leaves.
fn leaving(regs: &[u16; 256], right: bool, out: i32) -> i16
    requires { In 0x20000 0x20000 out }
    ensures { result ≡ saturated (product_of out (volume_at regs.now (0x184 + side_of right))) }
{
    fixed::saturate(scaled(regs, out, 0x184 + reverb::side(right)))
}

// Both reflections, in a loop: the compiler then has one call of `reflection`, and puts its code in place of it.
fn reflections(
    regs: &[u16; 256],
    ram: &mut [u8],
    marks: &mut [u8],
    line: DelayLine,
    input: i16,
    w: Watch,
) -> Watch
    requires { Lent line.area.size ram.old marks.old }
    ensures { Does (reflections_of regs.now line.area line.turning input) (mem_of ram.old marks.old w) tt (mem_of ram.new marks.new result) }
{
    let s = reverb::side(line.turning.right);
    let o = reverb::side(!line.turning.right);
    let x = scaled_sample(regs, input, 0x1FC + s);
    let pairs = [(0x1D4 + s, 0x1E0 + s), (0x1E4 + s, 0x1F0 + o)];
    let mut watch = w;
    for (m, d) in pairs {
        watch = reflection(regs, ram, marks, line, x, m, d, watch);
    }
    watch
}

// Both all-passes, in the same way.
fn all_passes(
    regs: &[u16; 256],
    ram: &mut [u8],
    marks: &mut [u8],
    line: DelayLine,
    out: Seen<i32>,
) -> Seen<i32>
    requires { Lent line.area.size ram.old marks.old × In 0x20000 0x20000 out.value }
    ensures { Does (all_passes regs.now line.area line.turning out.value) (mem_of ram.old marks.old out.watch) result.value (mem_of ram.new marks.new result.watch) × In 0x20000 0x20000 result.value }
{
    let s = reverb::side(line.turning.right);
    let triples = [(0x1D0, 0x1F4 + s, 0x1C0), (0x1D2, 0x1F8 + s, 0x1C2)];
    let mut sum = out;
    for (v, m, d) in triples {
        sum = all_pass(regs, ram, marks, line, v, m, d, sum);
    }
    sum
}

// One turn, of the input.
pub fn turn(
    regs: &[u16; 256],
    ram: &mut [u8],
    marks: &mut [u8],
    line: DelayLine,
    input: i16,
    w: Watch,
) -> Seen<i16>
    requires { Lent line.area.size ram.old marks.old }
    ensures { Does (turn_of regs.now line.area line.turning input) (mem_of ram.old marks.old w) result.value (mem_of ram.new marks.new result.watch) }
{
    let early = reflections(regs, ram, marks, line, input, w);
    let sum = combs(regs, ram, marks, line, early);
    let late = all_passes(regs, ram, marks, line, sum);
    let value = leaving(regs, line.turning.right, late.value);
    Seen {
        value,
        watch: late.watch,
    }
}
