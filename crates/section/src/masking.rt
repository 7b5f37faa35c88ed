// A body under its keystream: ciphertext from plaintext, and back.
ghost use Rattle.std.specs.Prelude.{◌≡◌, ◌≤◌, length};
ghost use Rattle.aes.specs.Blocks.{◌⊕◌};
ghost use Rattle.section.specs.Sections.{masked};

use keystream::Keystream;

// The first three words are the registers' own.
const FIRST: u32 = 3;

// After `chunks_mut`, or a `zip` with `iter_mut`, a proof knows no byte that was written, so the output is cut by place.
// Writes the input, each block xored with its word and the last one cut to length.
pub(crate) fn mask<K: Keystream>(keys: &K, input: &[u8], out: &mut [u8])
    requires { (length out.old ≡ length input.now) × (length input.now ≤ 1048576) }
    ensures { out.new ≡ masked (K.words keys.now) input.now }
{
    let (whole, tail) = input.as_chunks::<16>();
    for (j, block) in whole.iter().enumerate() {
        let start = 16 * j;
        let word = keys.word(FIRST + j as u32);
        xor_into(&word, block, &mut out[start..start + 16]);
    }
    let start = 16 * whole.len();
    let word = keys.word(FIRST + whole.len() as u32);
    xor_into(&word, tail, &mut out[start..]);
}

// Writes the input xored with the first bytes of a word; by place, as in `mask`.
fn xor_into(word: &[u8; 16], input: &[u8], out: &mut [u8])
    requires { (length out.old ≡ length input.now) × (length input.now ≤ 16) }
    ensures { out.new ≡ input.now ⊕ word.now }
{
    for (i, byte) in out.iter_mut().enumerate() {
        *byte = input[i] ^ word[i];
    }
}
