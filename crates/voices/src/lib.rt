// What the registers say of each voice, and what all 24 give to the rest of a tick.
#![tactic(auto)]

ghost use Rattle.std.specs.Prelude.{◌≡◌, ◌<◌};
ghost use Rattle.registers.specs.Map.{Flags};
ghost use Rattle.voices.specs.Voices.{flagged_of, settings_of, Modulated};

use stereo::Stereo;
use voice::Settings;

// The amplitudes of voices 1 and 3.
#[derive(Clone, Copy)]
pub struct Captured {
    pub first: i16,
    pub third: i16,
}

// What the voices give to the rest of a tick: the sums of all and of those with reverb, the amplitude of the voice before, and those that
// are captured.
#[derive(Clone, Copy)]
pub struct Sums {
    pub dry: Stereo<i32>,
    pub wet: Stereo<i32>,
    pub below: i16,
    pub captured: Captured,
}

// What the registers say of all voices, with PMON and NON as one number each: of PMON without voice 0, which has none below it.
#[derive(Clone, Copy)]
pub struct AllSettings<'a> {
    pub regs: &'a [u16; 256],
    pub pmon: u32,
    pub non: u32,
    pub ghost modulated: { Modulated regs.now pmon },
    pub ghost noisy: { Flags regs.now 0x194 non },
}

impl<'a> AllSettings<'a> {
    pub fn new(regs: &'a [u16; 256]) -> AllSettings<'a>
        ensures { result.regs.now ≡ regs.now }
    {
        AllSettings {
            regs,
            pmon: registers::flags(regs, 0x190) / 2 * 2,
            non: registers::flags(regs, 0x194),
        }
    }

    // The settings of voice n.
    pub fn of(&self, n: usize) -> Settings
        requires { n < 24 }
        ensures { result ≡ settings_of self.now.regs.now n }
    {
        with_flags(
            self.regs,
            n,
            registers::has(self.pmon, n),
            registers::has(self.non, n),
        )
    }
}

// The settings of voice n with these flags.
fn with_flags(regs: &[u16; 256], n: usize, modulated: bool, noise: bool) -> Settings
    requires { n < 24 }
    ensures { result ≡ flagged_of regs.now n modulated noise }
{
    Settings {
        pitch: registers::of_voice(regs, n, 4),
        low: registers::of_voice(regs, n, 8),
        high: registers::of_voice(regs, n, 0xA),
        modulated,
        noise,
    }
}
