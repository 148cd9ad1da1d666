// The registers as last written: 256 halfwords, the one at an offset from 1F801C00h; and which offsets and values calls take.
#![tactic(auto)]

ghost use Rattle.std.specs.Prelude.{◌≡◌, ◌<◌};
ghost use Rattle.fixed.specs.Bits.{bit};
ghost use Rattle.registers.specs.Map.{register_at, of_voice, flag_of, Flags};
ghost use Rattle.registers.specs.Offsets.{listed as listed_at, read_only, undocumented_bits, undocumented as undocumented_in, not_written};

pub fn at(regs: &[u16; 256], offset: usize) -> u16
    requires { offset < 512 }
    ensures { result ≡ register_at regs.now offset }
{
    regs[offset / 2]
}

// A register of voice n, by its offset from the voice's first.
pub fn of_voice(regs: &[u16; 256], n: usize, offset: usize) -> u16
    requires { (n < 24) × (offset < 16) }
    ensures { result ≡ of_voice regs.now n offset }
{
    regs[n * 8 + offset / 2]
}

// The flag of voice n in the pair of registers at an offset.
pub fn flag(regs: &[u16; 256], offset: usize, n: usize) -> bool
    requires { (n < 24) × (offset < 508) }
    ensures { result ≡ flag_of regs.now offset n }
{
    (regs[offset / 2 + n / 16] >> (n % 16)) % 2 == 1
}

// The flags of a pair, as one number.
pub fn flags(regs: &[u16; 256], offset: usize) -> u32
    requires { offset < 508 }
    ensures { Flags regs.now offset result }
{
    let low = at(regs, offset) as u32;
    let high = at(regs, offset + 2) as u32;
    low + high * 0x10000
}

// The flag of voice n among them.
pub fn has(flags: u32, n: usize) -> bool
    requires { n < 24 }
    ensures { result ≡ bit n flags }
{
    (flags >> n) % 2 == 1
}

// Which offsets there are, which can only be read, and which values cannot be written.

#[tactic(auto, using(std::proofs::Common::tests), unfolding(crate::specs::Offsets::listed))]
pub fn listed(offset: u32) -> bool
    ensures { result ≡ listed_at offset }
{
    offset % 2 == 0
        && matches!(
            offset,
            0..=0x19E | 0x1A2..=0x1AE | 0x1B0..=0x1BA | 0x1C0..=0x1FE
        )
}

#[tactic(auto, using(std::proofs::Common::tests), unfolding(crate::specs::Offsets::read_only))]
pub fn read_only(offset: u32) -> bool
    ensures { result ≡ read_only offset }
{
    matches!(offset, 0x19C | 0x19E | 0x1AE | 0x1B8 | 0x1BA)
}

// The bits of a register that nobody has documented, as a mask.
#[tactic(auto, using(std::proofs::Common::tests), unfolding(crate::specs::Offsets::undocumented_bits))]
fn undocumented_bits(offset: u32) -> u16
    ensures { result ≡ undocumented_bits offset }
{
    match offset {
        0..=0x17F if offset % 16 == 0xA => 0x2000,
        0x188..=0x19E if offset % 4 == 2 => 0xFF00,
        0x1AC => 0xFFF1,
        _ => 0,
    }
}

pub fn undocumented(offset: u32, value: u16) -> bool
    ensures { result ≡ undocumented_in offset value }
{
    value & undocumented_bits(offset) != 0
}

#[tactic(auto, using(std::proofs::Common::tests), unfolding(crate::specs::Offsets::not_written))]
pub fn not_written(offset: u32, value: u16) -> bool
    ensures { result ≡ not_written offset value }
{
    let sweep = value / 0x8000 % 2 == 1;
    match offset {
        0..=0x17F => match offset % 16 {
            0..=3 => sweep,
            0xC => true,
            _ => false,
        },
        0x180 | 0x182 => sweep,
        0x1A8 => true,
        0x1AC => value / 2 % 8 != 2,
        _ => false,
    }
}
