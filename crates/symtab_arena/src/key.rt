//! Hashers of names that take a key first.
ghost use Rattle.std.specs.Prelude.{◌≡◌, fold};
ghost use Rattle.std.specs.Hash as fed;
ghost use Rattle.std.specs.Hash.DefaultHasher as sip;

use std::hash::{BuildHasher, DefaultHasher, Hasher};

/// Makes the hashers of names. They are SipHash-1-3, and take the two words of the key before the
/// name, so that only one who knows the key can choose names that collide.
#[derive(Clone, Copy)]
pub struct NameKey {
    pub first: u64,
    pub second: u64,
}

impl BuildHasher for NameKey {
    type Hasher = DefaultHasher;

    ghost build_hasher = { λ k.
        fold sip.write (fold sip.write sip.initial (fed.u64 k.first)) (fed.u64 k.second) };

    fn build_hasher(&self) -> DefaultHasher {
        let mut hasher = DefaultHasher::new();
        hasher.write_u64(self.first);
        hasher.write_u64(self.second);
        hasher
    }
}
