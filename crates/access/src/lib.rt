// Accesses to sound RAM: a halfword read or written, and what each notices.
#![tactic(auto)]

ghost use Rattle.std.specs.Prelude.{◌≡◌, ◌+◌, ◌*◌, ◌/◌, ◌<◌, length};
ghost use Rattle.soundram.specs.Address.{halfword_of, Within};
ghost use Rattle.soundram.specs.Memory.{half, put_half, marked, mark};
ghost use Rattle.soundram.specs.Program.{Does, mem_of, get, put};

use soundram::{ByteAddress, Reader, Seen, Watch};

// The halfword at an address.
fn half_at(ram: &[u8], a: ByteAddress) -> u16
    requires { a.0 / 2 * 2 + 1 < length ram.now }
    ensures { result ≡ half ram.now (halfword_of a) }
{
    let i = (a.0 / 2 * 2) as usize;
    u16::from_le_bytes([ram[i], ram[i + 1]])
}

fn put_half(ram: &mut [u8], a: ByteAddress, v: u16)
    requires { a.0 / 2 * 2 + 1 < length ram.old }
    ensures { ram.new ≡ put_half ram.old (halfword_of a) v }
{
    let i = (a.0 / 2 * 2) as usize;
    let [low, high] = v.to_le_bytes();
    ram[i] = low;
    ram[i + 1] = high;
}

fn is_marked(marks: &[u8], a: ByteAddress) -> bool
    requires { a.0 / 2 / 8 < length marks.now }
    ensures { result ≡ marked marks.now (halfword_of a) }
{
    let h = a.0 / 2;
    (marks[(h / 8) as usize] >> (h % 8)) % 2 == 1
}

fn set_mark(marks: &mut [u8], a: ByteAddress)
    requires { a.0 / 2 / 8 < length marks.old }
    ensures { marks.new ≡ mark marks.old (halfword_of a) }
{
    let h = a.0 / 2;
    marks[(h / 8) as usize] |= 1 << (h % 8);
}

// One read of a halfword, counted or not.
pub fn read(
    ram: &[u8],
    marks: &[u8],
    who: Reader,
    counted: bool,
    a: ByteAddress,
    w: Watch,
) -> Seen<u16>
    requires { Within ram.now marks.now a }
    ensures { Does (get who counted (halfword_of a)) (mem_of ram.now marks.now w) result.value (mem_of ram.now marks.now result.watch) }
{
    let value = half_at(ram, a);
    let loaded = is_marked(marks, a);
    let watch = w.noticed(w.halfword == a.0 / 2, !counted | loaded);
    Seen { value, watch }
}

// One write of a halfword.
pub fn write(ram: &mut [u8], marks: &mut [u8], a: ByteAddress, v: u16, w: Watch) -> Watch
    requires { Within ram.old marks.old a }
    ensures { Does (put (halfword_of a) v) (mem_of ram.old marks.old w) tt (mem_of ram.new marks.new result) }
{
    put_half(ram, a, v);
    set_mark(marks, a);
    w.noticed(w.halfword == a.0 / 2, true)
}
