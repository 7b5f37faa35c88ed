// The AES round of FIPS 197 and its inverse on blocks of 16 bytes; byte 4c + r stands in row r and column c.
#![tactic(auto)]

mod tables;

ghost use Rattle.std.specs.Prelude.{◌≡◌, ◌*◌, ◌%◌, ◌<◌, slice_index};
ghost use Rattle.aes.specs.Blocks.{Block};
ghost use Rattle.aes.specs.Field.{xtime};
ghost use Rattle.aes.specs.Round.{sub, sub_inv, times as times_of, unmix, at_place, spread as spread_by};
ghost use Rattle.aes.specs.Round.{SubBytes, ShiftRows, InvSubBytes, InvShiftRows, InvMixColumns, Finv};
ghost use Rattle.aes.specs.Round.{BoxIsPublished, InverseInverts, BoxesUndoEachOther, CoefficientsAreProducts};
ghost use Rattle.aes.specs.Round.{UndoEachOther, OneToOne, RoundOneToOne};

use tables::{INV_SBOX, SBOX};

// The S-box at `b`.
pub fn sub_byte(b: u8) -> u8
    ensures { result ≡ sub b }
{
    SBOX[b as usize]
}

// The S-box at each byte.
pub fn sub_bytes(x: &[u8; 16]) -> [u8; 16]
    ensures { result ≡ SubBytes x.now }
{
    x.map(sub_byte)
}

// Row r moves r columns to the left.
pub fn shift_rows(x: &[u8; 16]) -> [u8; 16]
    ensures { result ≡ ShiftRows x.now }
{
    spread::<5>(x)
}

// The block that F makes `y` from.
pub fn inv_f(y: &[u8; 16]) -> [u8; 16]
    ensures { result ≡ Finv y.now }
{
    let unmixed = inv_mix_columns(y);
    let unshifted = inv_shift_rows(&unmixed);
    inv_sub_bytes(&unshifted)
}

fn inv_sub_byte(b: u8) -> u8
    ensures { result ≡ sub_inv b }
{
    INV_SBOX[b as usize]
}

fn inv_sub_bytes(x: &[u8; 16]) -> [u8; 16]
    ensures { result ≡ InvSubBytes x.now }
{
    x.map(inv_sub_byte)
}

fn inv_shift_rows(x: &[u8; 16]) -> [u8; 16]
    ensures { result ≡ InvShiftRows x.now }
{
    spread::<13>(x)
}

// Each place takes the byte at `STEP` times its own place, counted round.
fn spread<const STEP: u8>(x: &[u8; 16]) -> [u8; 16]
    ensures { result ≡ spread_by STEP x.now }
{
    std::array::from_fn(
        |i: usize| -> u8
            requires { i < 16 }
            ensures { result ≡ slice_index x.entry.now (STEP * i % 16) }
        { x[STEP as usize * i % 16] },
    )
}

fn inv_mix_columns(x: &[u8; 16]) -> [u8; 16]
    ensures { result ≡ InvMixColumns x.now }
{
    std::array::from_fn(
        |i: usize| -> u8
            requires { i < 16 }
            ensures { result ≡ at_place unmix x.entry.now i }
        {
            let top = i / 4 * 4;
            unmix_byte(
                x[i],
                x[top + (i + 1) % 4],
                x[top + (i + 2) % 4],
                x[top + (i + 3) % 4],
            )
        },
    )
}

// One byte of an unmixed column.
fn unmix_byte(a: u8, b: u8, c: u8, d: u8) -> u8
    ensures { result ≡ unmix a b c d }
{
    times::<14>(a) ^ times::<11>(b) ^ (times::<13>(c) ^ times::<9>(d))
}

// `b` times x in GF(2^8).
fn double(b: u8) -> u8
    ensures { result ≡ xtime b }
{
    (b << 1) ^ ((b >> 7) * 0x1b)
}

// `b` times `C` in GF(2^8): the doublings of `b` that the lowest four bits of `C` name.
fn times<const C: u8>(b: u8) -> u8
    ensures { result ≡ times_of C b }
{
    let b2 = double(b);
    let b4 = double(b2);
    let b8 = double(b4);
    (C % 2 * b) ^ ((C / 2 % 2 * b2) ^ ((C / 4 % 2 * b4) ^ (C / 8 % 2 * b8)))
}

// The two tables of the code are the published ones, they undo each other, and so do F and its inverse.
pub fn tables_and_rounds_stand()
    ensures published { BoxIsPublished }
    ensures inverts { InverseInverts }
    ensures boxes { BoxesUndoEachOther }
    ensures products { CoefficientsAreProducts }
    ensures undo { UndoEachOther }
    ensures one { OneToOne }
    ensures round { RoundOneToOne }
{}
