// The calls of xa for C: the samples of a sector of CD-ROM XA ADPCM.
#![tactic(auto)]

ghost use Rattle.std.specs.Prelude.{◌≡◌};
ghost use Rattle.xa.specs.Xa.{fresh_of, decoded_of};

use xa::{Decoded, Histories};

#[unsafe(no_mangle)]
pub extern "C" fn tenonwhisk_xa_fresh() -> Histories
    ensures { result ≡ fresh_of }
{
    xa::tenonwhisk_xa_fresh()
}

#[unsafe(no_mangle)]
pub extern "C" fn tenonwhisk_xa_decode(
    sector: &[u8],
    stereo: bool,
    eight_bit: bool,
    histories: Histories,
    out: &mut [i16],
) -> Decoded
    ensures { record { number = result.number; histories = result.histories; out = out.new } ≡ decoded_of sector.now stereo eight_bit histories out.old }
{
    xa::tenonwhisk_xa_decode(sector, stereo, eight_bit, histories, out)
}
