//! HMAC by FIPS 198-1, with SHA-256.
#![tactic(auto)]

ghost use Rattle.std.specs.Prelude.{◌≡◌, ◌↔◌, ◌-◌, ◌++◌, IsTrue};
ghost use Rattle.sha2.specs.Sha256.{sha256};
ghost use Rattle.hmac_core.specs.Hmac.{hmac, block_key, masked};

use sha2::{Digest, Sha256};
use std::marker::Model;

// The bytes of a block of SHA-256.
const BLOCK: usize = 64;

// The bytes ipad and opad of FIPS 198-1.
const INNER_PAD: u8 = 0x36;

const OUTER_PAD: u8 = 0x5c;

// The key filled with zero bytes to one block; a longer key gives way to its digest (FIPS 198-1, steps 1 to 3).
fn key_block(key: &[u8]) -> [u8; BLOCK]
    ensures { result ≡ block_key key.now }
{
    let mut block = [0; BLOCK];
    if key.len() > BLOCK {
        let digest = Sha256::digest(key);
        block[..32].copy_from_slice(&digest);
    } else {
        block[..key.len()].copy_from_slice(key);
    }
    block
}

// Each byte of the block xor the pad (FIPS 198-1, steps 4 and 7).
fn mask(block: &[u8; BLOCK], pad: u8) -> [u8; BLOCK]
    ensures { result ≡ masked pad block.now }
{
    let mut masked = [0; BLOCK];
    for i in 0..BLOCK {
        masked[i] = block[i] ^ pad;
    }
    masked
}

// The digest of two parts taken as one message.
fn digest_of_parts(first: &[u8], second: &[u8]) -> [u8; 32]
    ensures { result ≡ sha256 (first.now ++ second.now) }
{
    let mut hasher = Sha256::new();
    hasher.update(first);
    hasher.update(second);
    hasher.finalize()
}

/// The code of 32 bytes of the text under the key, by FIPS 198-1. Key and text may have any length.
#[tactic(auto, unfolding(crate::specs::Hmac::hmac))]
pub fn hmac256(key: &[u8], text: &[u8]) -> [u8; 32]
    ensures { result ≡ hmac key.now text.now }
{
    let block = key_block(key);
    let inner = digest_of_parts(&mask(&block, INNER_PAD), text);
    digest_of_parts(&mask(&block, OUTER_PAD), &inner)
}

/// Whether these bytes are the code of the text under the key: all 32, and no more.
pub fn matches(key: &[u8], text: &[u8], code: &[u8]) -> bool
    ensures { IsTrue result ↔ (code.now ≡ hmac key.now text.now) }
{
    code == hmac256(key, text).as_slice()
}

/// A key made ready for codes: beside it the hashers that took its two blocks. A code under it takes the blocks of its text
/// and one more, where `hmac256` takes the key's two blocks too.
#[derive(Drop)]
pub struct ReadyKey {
    key: [u8; 32],
    inner: Sha256,
    outer: Sha256,
}

impl Model for ReadyKey {
    ghost use Rattle.std.specs.Prelude.{ℕ, List};
    ghost use Rattle.sha2.specs.Hashers.{Holds256};
    ghost use Rattle.hmac_core.specs.Hmac.{block_key, masked};

    ghost Value = { List ℕ };

    ghost view = { λ r. r.key };

    ghost invariant = { λ r. Holds256 r.inner (masked 0x36 (block_key r.key)) × Holds256 r.outer (masked 0x5c (block_key r.key)) };
}

// A hasher as this one is.
fn again(hasher: &Sha256) -> Sha256
    ensures { result ≡ hasher.now }
{
    match hasher.clone() {
        Ok(copy) => copy,
        Err(_) => unreachable!(),
    }
}

impl ReadyKey {
    /// Makes a key ready.
    pub fn new(key: &[u8; 32]) -> ReadyKey
        ensures { result ≡ key.now }
    {
        let block = key_block(key);
        ReadyKey {
            key: *key,
            inner: Sha256::new_with_prefix(&mask(&block, INNER_PAD)),
            outer: Sha256::new_with_prefix(&mask(&block, OUTER_PAD)),
        }
    }

    /// The key.
    pub fn key(&self) -> &[u8; 32]
        ensures { result.now ≡ self.now }
    {
        &self.key
    }

    /// The code of 32 bytes of the text under the key, as `hmac256` gives it.
    #[tactic(auto, unfolding(crate::specs::Hmac::hmac))]
    pub fn code(&self, text: &[u8]) -> [u8; 32]
        ensures { result ≡ hmac self.now text.now }
    {
        let mut inner = again(&self.inner);
        inner.update(text);
        let mut outer = again(&self.outer);
        outer.update(&inner.finalize());
        outer.finalize()
    }

    /// Whether these bytes are the code of the text under the key: all 32, and no more.
    pub fn matches(&self, text: &[u8], code: &[u8]) -> bool
        ensures { IsTrue result ↔ (code.now ≡ hmac self.now text.now) }
    {
        code == self.code(text).as_slice()
    }
}
