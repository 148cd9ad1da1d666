// What a voice gives in a tick.
#![tactic(auto)]

ghost use Rattle.std.specs.Prelude.{◌≡◌, ◌≤◌, pos};
ghost use Rattle.fixed.specs.Arithmetic.{product_of};
ghost use Rattle.voice.specs.Voice.{sound_of, amplitude_of};

use gauss::Table;
use voice::{Settings, Voice};

// What the voice gives before its envelope: its samples, interpolated, or the noise.
fn sound(table: &Table, s: Settings, level: u16, v: Voice) -> i16
    requires { v.position.index ≤ 27 }
    ensures { result ≡ sound_of s level v }
{
    if s.noise {
        return fixed::to_signed(level);
    }
    let i = gauss::index(v.position.counter);
    let samples = v.playing.samples;
    let k = v.position.index as usize;
    table.interpolate(
        i,
        samples[k],
        samples[k + 1],
        samples[k + 2],
        samples[k + 3],
    )
}

// It, scaled by the envelope's level.
pub fn scaled(x: i16, level: u16) -> i16
    requires { level ≤ 0x7FFF }
    ensures { result ≡ product_of x (pos level) }
{
    fixed::product(x as i32, level as i16) as i16
}

// The amplitude, with the envelope before its step.
pub fn amplitude(table: &Table, s: Settings, level: u16, v: Voice) -> i16
    requires { (v.position.index ≤ 27) × (v.envelope.level ≤ 0x7FFF) }
    ensures { result ≡ amplitude_of s level v }
{
    scaled(sound(table, s, level, v), v.envelope.level)
}
