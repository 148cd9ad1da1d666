// A block loaded from sound RAM.
#![tactic(auto)]

ghost use Rattle.std.specs.Prelude.{◌<◌};
ghost use Rattle.soundram.specs.Address.{Lent};
ghost use Rattle.soundram.specs.Program.{Does, mem_of, bytes_from};

use soundram::{ByteAddress, Reader, Seen, Watch};

// The 16 bytes of the block at an address, a halfword at a time.
fn load_each(
    ram: &[u8],
    marks: &[u8],
    who: Reader,
    size: u32,
    a: ByteAddress,
    w: Watch,
) -> Seen<[u8; 16]>
    requires { Lent size ram.now marks.now × (a.0 < size) }
    ensures { Does (bytes_from who size a 8) (mem_of ram.now marks.now w) result.value (mem_of ram.now marks.now result.watch) }
{
    let mut bytes = [0u8; 16];
    let mut watch = w;
    for i in 0..8usize {
        let k = i * 2;
        let got = access::read(
            ram,
            marks,
            who,
            true,
            soundram::forward(size, a, k as u32),
            watch,
        );
        bytes[k] = (got.value % 256) as u8;
        bytes[k + 1] = (got.value / 256) as u8;
        watch = got.watch;
    }
    Seen {
        value: bytes,
        watch,
    }
}

// The 16 bytes of the block at an address, all of them counted reads. Most blocks lie at a multiple of 16 and are marked whole: their eight
// marks are one byte, and the reads are one.
pub fn load(
    ram: &[u8],
    marks: &[u8],
    who: Reader,
    size: u32,
    a: ByteAddress,
    w: Watch,
) -> Seen<[u8; 16]>
    requires { Lent size ram.now marks.now × (a.0 < size) }
    ensures { Does (bytes_from who size a 8) (mem_of ram.now marks.now w) result.value (mem_of ram.now marks.now result.watch) }
{
    let i = (a.0 / 16) as usize;
    if (a.0 % 16 == 0) & (marks[i] == 0xFF) {
        return Seen {
            value: adpcm::block_at(ram, a.0 as usize),
            watch: w.noticed(w.halfword / 8 == a.0 / 16, true),
        };
    }
    load_each(ram, marks, who, size, a, w)
}
