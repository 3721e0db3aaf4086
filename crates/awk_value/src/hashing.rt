// How keys are hashed: with a secret of the table, so that nobody can choose keys whose hashes meet.

ghost use Rattle.std.specs.Prelude.{◌≡◌};
ghost use Rattle.std.specs.Hash.FoldHasher.{folded_multiply};
ghost use Rattle.std.specs.Hash.FoldHasher as folding;

use std::hash::{BuildHasher, FoldHasher, Hasher};

/// What ends each hash where there is no secret: an odd number, as a secret's is.
const KNOWN_FACTOR: u64 = 0x9E37_79B9_7F4A_7C15;

/// What begins and what ends each hash of a table's keys: 16 random bytes, or what is the same in each process.
#[derive(Clone, Copy)]
pub(crate) struct Secret {
    first: FoldHasher,
    factor: u64,
}

/// A hasher that multiplies to 128 bits and joins the halves, from a secret on and by a secret last.
#[derive(Clone, Copy)]
pub(crate) struct SecretHasher {
    words: FoldHasher,
    factor: u64,
}

impl Secret {
    /// None, for maps of so few keys that nobody gains by choosing them. Asks nothing of the system.
    pub(crate) fn none() -> Secret {
        Secret {
            first: FoldHasher::default(),
            factor: KNOWN_FACTOR,
        }
    }

    /// Whether it is none.
    #[inline(always)]
    pub(crate) fn is_none(&self) -> bool {
        self.factor == KNOWN_FACTOR
    }

    /// A new one. Where the system has no random bytes to give, it is the same in each process.
    pub(crate) fn new() -> Secret {
        let mut bytes = [0; 16];
        let _ = libc::getentropy(&mut bytes);
        let mut first = FoldHasher::default();
        let random = u128::from_le_bytes(bytes);
        first.write_u64((random & 0xFFFF_FFFF_FFFF_FFFF) as u64);
        Secret {
            first,
            factor: (random >> 64) as u64 | 1,
        }
    }
}

impl BuildHasher for Secret {
    type Hasher = SecretHasher;

    ghost build_hasher = { λ s. record { words = s.first; factor = s.factor } };

    #[inline(always)]
    fn build_hasher(&self) -> SecretHasher {
        SecretHasher {
            words: self.first,
            factor: self.factor,
        }
    }
}

impl Hasher for SecretHasher {
    ghost write = { λ h bytes. record h { words = folding.write h.words bytes } };

    ghost finish = { λ h. folded_multiply (folding.finish h.words) h.factor };

    #[inline(always)]
    fn finish(&self) -> u64 {
        folded_multiply(self.words.finish(), self.factor)
    }

    #[inline(always)]
    fn write(&mut self, bytes: &[u8]) {
        self.words.write(bytes);
    }
}

/// The two halves of a product of 128 bits, joined.
#[inline(always)]
fn folded_multiply(a: u64, b: u64) -> u64
    ensures { result ≡ folded_multiply a b }
{
    let product = a as u128 * b as u128;
    (product & 0xFFFF_FFFF_FFFF_FFFF) as u64 ^ (product >> 64) as u64
}
