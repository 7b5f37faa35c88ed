// Opening, under any keystream.
ghost use Rattle.section.specs.Calls.{Opened};

use crate::guard::Guard;
use crate::masking::mask;
use crate::tagging::{closing, verify};
use crate::{LARGEST, TAG};
use keystream::Keystream;
use refusals::Refusal;

// Writes the body whose section was received. From the first write on, the guard zeroes the output on every way out but the last.
pub fn open_under<K: Keystream>(
    keys: &K,
    header: &[u8],
    section: &[u8],
    out: &mut [u8],
) -> Result<(), Refusal>
    ensures { Opened (K.words keys.now) header.now section.now out.old result out.new }
{
    let len = section.len();
    if header.len() > LARGEST || len < TAG || len > LARGEST + TAG {
        return Err(Refusal::TooLarge);
    }
    if out.len() != len - TAG {
        return Err(Refusal::OutputLength);
    }
    let (ciphertext, tag) = section.split_at(len - TAG);
    let guard = Guard { out };
    mask(keys, ciphertext, guard.out);
    verify(&closing(keys, header, ciphertext), tag)?;
    guard.keep();
    Ok(())
}
