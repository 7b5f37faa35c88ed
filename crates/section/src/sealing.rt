// Sealing, under any keystream.
ghost use Rattle.section.specs.Calls.{Sealed};

use crate::masking::mask;
use crate::tagging::{closing, section_tag};
use crate::{LARGEST, TAG};
use keystream::Keystream;
use refusals::Refusal;

// Writes the section of header and body: the ciphertext, and then its tag. Refused, the output keeps its bytes.
pub fn seal_under<K: Keystream>(
    keys: &K,
    header: &[u8],
    body: &[u8],
    out: &mut [u8],
) -> Result<(), Refusal>
    ensures { Sealed (K.words keys.now) header.now body.now out.old result out.new }
{
    let len = body.len();
    if header.len() > LARGEST || len > LARGEST {
        return Err(Refusal::TooLarge);
    }
    if out.len() != len + TAG {
        return Err(Refusal::OutputLength);
    }
    mask(keys, body, &mut out[0..len]);
    let run = closing(keys, header, &out[0..len]);
    out[len..].copy_from_slice(&section_tag(&run));
    Ok(())
}
