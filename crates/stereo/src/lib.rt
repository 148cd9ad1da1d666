// Both sides of the sound: a pair of values, and a tick's pair of samples as 32-bit floats.
#![tactic(auto)]

ghost use Rattle.std.specs.Prelude.{◌≡◌};
ghost use Rattle.stereo.specs.Float.{float_of, Exactly, stereo_of};

// A value for each side.
#[derive(Clone, Copy)]
pub struct Stereo<T> {
    pub left: T,
    pub right: T,
}

// A sample from -1 up to, not including, 1.
pub fn to_float(x: i16) -> f32
    ensures { (result ≡ float_of x) × Exactly x result }
{
    (x as f32) / 32768.0
}

pub fn to_floats(left: i16, right: i16) -> Stereo<f32>
    ensures { result ≡ stereo_of left right }
{
    Stereo {
        left: to_float(left),
        right: to_float(right),
    }
}
