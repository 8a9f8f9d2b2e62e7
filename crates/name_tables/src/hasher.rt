//! The hash of names, by a key.

ghost use Rattle.std.specs.Prelude.{◌≡◌, fold};
ghost use Rattle.std.specs.Hash as fed;
ghost use Rattle.std.specs.Hash.DefaultHasher as sip;

use std::hash::{BuildHasher, DefaultHasher, Hasher};

/// Makes the hasher of each look-up: SipHash-1-3 that has read a key first.
///
/// The key is to be made of all names that will be looked up, as their hash in order is: then whoever writes the names
/// can't choose them so that they collide, since each change of one makes another key. No contract of a map depends on
/// it.
#[derive(Clone, Copy)]
pub struct Keyed {
    /// The hasher that has read the key.
    started: DefaultHasher,
}

impl Keyed {
    /// A hash by this key, any 64 bits.
    pub fn new(key: u64) -> Keyed
        ensures { result.started ≡ fold sip.write sip.initial (fed.u64 key) }
    {
        let mut started = DefaultHasher::new();
        started.write_u64(key);
        Keyed { started }
    }
}

impl BuildHasher for Keyed {
    type Hasher = DefaultHasher;

    ghost build_hasher = { λ k. k.started };

    fn build_hasher(&self) -> DefaultHasher {
        self.started
    }
}
