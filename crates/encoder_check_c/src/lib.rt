// The call of encoder_check for C: blocks that an encoder made, against the samples that it made them of.
#![tactic(auto)]

ghost use Rattle.std.specs.Prelude.{◌≡◌};
ghost use Rattle.encoder_check.specs.Check.{verdict_of, answer_of};

use encoder_check::Answer;

#[unsafe(no_mangle)]
pub extern "C" fn tenonwhisk_encoder_check(
    originals: &[i16],
    encoded: &[u8],
    largest: u16,
) -> Answer
    ensures { result ≡ answer_of (verdict_of originals.now encoded.now largest) }
{
    encoder_check::tenonwhisk_encoder_check(originals, encoded, largest)
}
