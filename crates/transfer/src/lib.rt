// Transfers: halfwords moved at the transfer address.
#![tactic(auto)]

ghost use Rattle.std.specs.Prelude.{◌≡◌, ◌+◌, ◌-◌, ◌*◌, ◌%◌, ◌^◌, ◌≤◌, ◌<◌, length};
ghost use Rattle.soundram.specs.Address.{Lent};
ghost use Rattle.soundram.specs.Program.{Does, mem_of};
ghost use Rattle.transfer.specs.Transfer.{put_one, inward_of, outward_of};
ghost use Rattle.transfer.specs.Whole.{stored_of, marked_from, copied_of, all_marked, passed_of};

use soundram::{ByteAddress, Reader, Seen, Watch};

// The address after the halfwords moved so far.
pub type Moved = Seen<ByteAddress>;

// ---- n halfwords from halfword h on, none past the end of sound RAM

// What an access to each leaves of the watch; sure: none was a counted read of an unmarked halfword.
fn passed(w: Watch, h: u32, n: u32, sure: bool) -> Watch
    requires { h + n ≤ 0x80000 }
    ensures { result ≡ passed_of w h n sure }
{
    w.noticed((h <= w.halfword) & (w.halfword < h + n), sure)
}

fn store_all(ram: &mut [u8], h: usize, values: &[u16])
    requires { (h + length values.now) * 2 ≤ length ram.old }
    ensures { ram.new ≡ stored_of ram.old h values.now (length values.now) }
{
    for (i, v) in values.iter().enumerate() {
        let at = (h + i) * 2;
        let [low, high] = v.to_le_bytes();
        ram[at] = low;
        ram[at + 1] = high;
    }
}

// How many of the n halfwords from h on have their marks in one byte with h's.
fn in_byte(h: usize, n: usize) -> usize
    requires { 0 < n }
    ensures { (h % 8 + result ≤ 8) × (result ≤ n) × (0 < result) }
{
    n.min(8 - h % 8)
}

// The m bits of a byte from bit k on.
fn bits(k: usize, m: usize) -> u8
    requires { k + m ≤ 8 }
    ensures { result ≡ 2 ^ (m + k) - 2 ^ k }
{
    ((1u32 << (m + k)) - (1u32 << k)) as u8
}

// A turn takes as many halfwords as have their marks in one byte, here and in `all_marked`: no iterator over marks or bytes counts so.
fn mark_all(marks: &mut [u8], h: usize, n: usize)
    requires { (h + n ≤ length marks.old * 8) × (length marks.old ≤ 0x8000) }
    ensures { marks.new ≡ marked_from marks.old h n }
{
    let mut i = 0usize;
    while i < n {
        let at = h + i;
        let m = in_byte(at, n - i);
        let mask = bits(at % 8, m);
        marks[at / 8] |= mask;
        i += m;
    }
}

fn copy_all(ram: &[u8], h: usize, out: &mut [u16])
    requires { (h + length out.old) * 2 ≤ length ram.now }
    ensures { out.new ≡ copied_of ram.now h out.old (length out.old) }
{
    for (i, x) in out.iter_mut().enumerate() {
        let at = (h + i) * 2;
        *x = u16::from_le_bytes([ram[at], ram[at + 1]]);
    }
}

fn all_marked(marks: &[u8], h: usize, n: usize) -> bool
    requires { (h + n ≤ length marks.now * 8) × (length marks.now ≤ 0x8000) }
    ensures { result ≡ all_marked marks.now h n }
{
    let mut ok = true;
    let mut i = 0usize;
    while i < n {
        let at = h + i;
        let m = in_byte(at, n - i);
        let mask = bits(at % 8, m);
        ok &= marks[at / 8] & mask == mask;
        i += m;
    }
    ok
}

fn put(ram: &mut [u8], marks: &mut [u8], size: u32, value: u16, m: Moved) -> Moved
    requires { Lent size ram.old marks.old × (m.value.0 < size) }
    ensures { Does (put_one size value m.value) (mem_of ram.old marks.old m.watch) result.value (mem_of ram.new marks.new result.watch) × (result.value.0 < size) }
{
    let watch = access::write(ram, marks, m.value, value, m.watch);
    Seen {
        value: soundram::forward(size, m.value, 2),
        watch,
    }
}

// The values into sound RAM, one at a time, because an address may wrap.
fn inward_around(
    ram: &mut [u8],
    marks: &mut [u8],
    size: u32,
    a: ByteAddress,
    values: &[u16],
    w: Watch,
) -> Moved
    requires { Lent size ram.old marks.old × (a.0 < size) }
    ensures { Does (inward_of size a values.now) (mem_of ram.old marks.old w) result.value (mem_of ram.new marks.new result.watch) }
{
    let mut m = Seen { value: a, watch: w };
    for value in values {
        m = put(ram, marks, size, *value, m);
    }
    m
}

// The values into sound RAM. The address after them lies in it too, so that none wraps.
fn inward_straight(
    ram: &mut [u8],
    marks: &mut [u8],
    size: u32,
    a: ByteAddress,
    values: &[u16],
    w: Watch,
) -> Moved
    requires { Lent size ram.old marks.old × (a.0 + length values.now * 2 < size) }
    ensures { Does (inward_of size a values.now) (mem_of ram.old marks.old w) result.value (mem_of ram.new marks.new result.watch) }
{
    let h = a.0 / 2;
    let n = values.len();
    store_all(ram, h as usize, values);
    mark_all(marks, h as usize, n);
    let watch = passed(w, h, n as u32, true);
    Seen {
        value: ByteAddress(a.0 + n as u32 * 2),
        watch,
    }
}

// The values into sound RAM.
pub fn inward(
    ram: &mut [u8],
    marks: &mut [u8],
    size: u32,
    a: ByteAddress,
    values: &[u16],
    w: Watch,
) -> Moved
    requires { Lent size ram.old marks.old × (a.0 < size) }
    ensures { Does (inward_of size a values.now) (mem_of ram.old marks.old w) result.value (mem_of ram.new marks.new result.watch) }
{
    if values.len() < ((size - a.0) / 2) as usize {
        return inward_straight(ram, marks, size, a, values, w);
    }
    inward_around(ram, marks, size, a, values, w)
}

// Out of sound RAM, one at a time, because an address may wrap.
fn outward_around(
    ram: &[u8],
    marks: &[u8],
    size: u32,
    a: ByteAddress,
    out: &mut [u16],
    w: Watch,
) -> Moved
    requires { Lent size ram.now marks.now × (a.0 < size) }
    ensures { Does (outward_of size a out.old) (mem_of ram.now marks.now w) (record { address = result.value; buffer = out.new }) (mem_of ram.now marks.now result.watch) }
{
    let mut address = a;
    let mut watch = w;
    for x in out.iter_mut() {
        let got = access::read(ram, marks, Reader::Transfer, true, address, watch);
        *x = got.value;
        watch = got.watch;
        address = soundram::forward(size, address, 2);
    }
    Seen {
        value: address,
        watch,
    }
}

// Out of sound RAM. The address after the last halfword lies in it too, so that none wraps.
fn outward_straight(
    ram: &[u8],
    marks: &[u8],
    size: u32,
    a: ByteAddress,
    out: &mut [u16],
    w: Watch,
) -> Moved
    requires { Lent size ram.now marks.now × (a.0 + length out.old * 2 < size) }
    ensures { Does (outward_of size a out.old) (mem_of ram.now marks.now w) (record { address = result.value; buffer = out.new }) (mem_of ram.now marks.now result.watch) }
{
    let h = a.0 / 2;
    let n = out.len();
    copy_all(ram, h as usize, out);
    let sure = all_marked(marks, h as usize, n);
    let watch = passed(w, h, n as u32, sure);
    Seen {
        value: ByteAddress(a.0 + n as u32 * 2),
        watch,
    }
}

// Out of sound RAM, as many as the buffer holds.
pub fn outward(
    ram: &[u8],
    marks: &[u8],
    size: u32,
    a: ByteAddress,
    out: &mut [u16],
    w: Watch,
) -> Moved
    requires { Lent size ram.now marks.now × (a.0 < size) }
    ensures { Does (outward_of size a out.old) (mem_of ram.now marks.now w) (record { address = result.value; buffer = out.new }) (mem_of ram.now marks.now result.watch) }
{
    if out.len() < ((size - a.0) / 2) as usize {
        return outward_straight(ram, marks, size, a, out, w);
    }
    outward_around(ram, marks, size, a, out, w)
}
