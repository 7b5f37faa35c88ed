// The three registers as words, and the round on them.
#![tactic(auto)]

ghost use Rattle.std.specs.Prelude.{◌≡◌};
ghost use Rattle.rounds.specs.Round.{round, unround};
ghost use Rattle.rounds.specs.Mixing.{dummy as dummy_of, zero_registers};
ghost use Rattle.rounds.specs.Mixing.{◌⊞◌, dummy_rounds as dummy_rounds_of, mixed as mixed_of, keyed as keyed_of};
ghost use Rattle.registers.specs.Registers.{regs, three_of};
ghost use Rattle.words.specs.Words.{bytes};

use sigma::Permutation;
use std::marker::PhantomData;
use std::ops::BitXor;
use words::Words;

// The first register is kept as it was before the permutation P.
#[derive_where(Clone, Copy)]
pub struct RegisterWords<P> {
    p1: Words,
    pub a2: Words,
    pub a3: Words,
    permuted: PhantomData<P>,
}

impl<P: Permutation> RegisterWords<P> {
    // Three registers and no array of them: `from_bytes(&[halves[1], halves[0], *iv])` would copy three blocks to take them apart.
    pub fn from_bytes(a1: &[u8; 16], a2: &[u8; 16], a3: &[u8; 16]) -> RegisterWords<P>
        ensures { regs P.sigma result ≡ record { a1 = a1.now; a2 = a2.now; a3 = a3.now } }
    {
        RegisterWords {
            p1: P::moved_back(Words::from(a1)),
            a2: Words::from(a2),
            a3: Words::from(a3),
            permuted: PhantomData,
        }
    }

    // The bytes of A1, A2 and A3.
    pub fn to_bytes(self) -> [[u8; 16]; 3]
        ensures { result ≡ three_of (regs P.sigma self) }
    {
        [
            P::moved(self.p1).to_bytes(),
            self.a2.to_bytes(),
            self.a3.to_bytes(),
        ]
    }

    pub fn zero() -> RegisterWords<P>
        ensures { regs P.sigma result ≡ zero_registers }
    {
        RegisterWords::from_bytes(&[0; 16], &[0; 16], &[0; 16])
    }

    // Key and IV in their registers.
    pub fn keyed(key: &[u8; 32], iv: &[u8; 16]) -> RegisterWords<P>
        ensures { regs P.sigma result ≡ keyed_of key.now iv.now }
    {
        let (halves, _) = key.as_chunks::<16>();
        RegisterWords::from_bytes(&halves[1], &halves[0], iv)
    }

    pub fn step(self, m: Words) -> RegisterWords<P>
        ensures { regs P.sigma result ≡ round P.sigma (regs P.sigma self) (bytes m) }
    {
        RegisterWords {
            p1: self.a2 ^ self.a3 ^ m,
            a2: P::moved(self.p1).f() ^ m,
            a3: self.a2.f() ^ m,
            permuted: PhantomData,
        }
    }

    // The way back of `step`.
    pub fn unstep(self, m: Words) -> RegisterWords<P>
        ensures { regs P.sigma result ≡ unround P.sigma (regs P.sigma self) (bytes m) }
    {
        let a2 = (self.a3 ^ m).inv_f();
        RegisterWords {
            p1: P::moved_back((self.a2 ^ m).inv_f()),
            a2,
            a3: self.p1 ^ a2 ^ m,
            permuted: PhantomData,
        }
    }

    pub fn dummy_rounds(self, n: u8) -> RegisterWords<P>
        ensures { regs P.sigma result ≡ dummy_rounds_of P.sigma n (regs P.sigma self) }
    {
        let mut s = self;
        for _ in 0..n {
            s = s.step(dummy());
        }
        s
    }

    pub fn mixed(self) -> RegisterWords<P>
        ensures { regs P.sigma result ≡ mixed_of P.sigma (regs P.sigma self) }
    {
        self.dummy_rounds(9) ^ self
    }
}

// Register by register.
impl<P: Permutation> BitXor for RegisterWords<P> {
    type Output = RegisterWords<P>;

    ghost bitxor_gives = { λ s t r. regs P.sigma r ≡ regs P.sigma s ⊞ regs P.sigma t };

    fn bitxor(self, t: RegisterWords<P>) -> RegisterWords<P> {
        RegisterWords {
            p1: self.p1 ^ t.p1,
            a2: self.a2 ^ t.a2,
            a3: self.a3 ^ t.a3,
            permuted: PhantomData,
        }
    }
}

// The block of a dummy round.
pub fn dummy() -> Words
    ensures { bytes result ≡ dummy_of }
{
    Words(1, 0, 0, 0)
}
