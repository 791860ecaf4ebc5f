//! Digests. That of runs covers the one before it, so who kept one sees whether the runs before were changed. That of a folder covers its storages.
use audit_recount::Run;
use sha2::{Digest, Sha256};
use std::alloc::{AllocError, Global};
use std::cell::RefCell;
use std::io::{self, Read};

/// A digest of runs, or of storages.
pub type Sum = [u8; 32];

/// A reader whose bytes are hashed as they are read.
#[derive(Drop)]
pub struct Hashed<'a, R: Read> {
    pub inner: R,
    pub hasher: &'a RefCell<Sha256>,
}

impl<'a, R: Read> Read for Hashed<'a, R> {
    ghost remaining = { λ s. R.remaining s.inner };

    fn read(&mut self, buf: &mut [u8]) -> io::Result<usize> {
        let Ok(mut hasher) = self.hasher.try_borrow_mut() else {
            return Err(io::Error::from(io::ErrorKind::Other));
        };
        let count = self.inner.read(buf)?;
        hasher.update(&buf[..count]);
        Ok(count)
    }
}

/// The digest in hexadecimal digits.
pub fn sum_text(alloc: Global, sum: &Sum) -> Result<String, AllocError> {
    let mut text = String::new(alloc);
    for byte in sum.iter() {
        let two = format!(in alloc; "{:02x}", *byte)?;
        text.push_str(two.as_str())?;
    }
    Ok(text)
}

/// Before the first run.
pub const NO_RUNS: Sum = [0; 32];

// How long it is, in eight bytes, the greatest first, and the bytes: no two lists of texts give one list of bytes.
fn put(hasher: &mut Sha256, bytes: &[u8]) {
    let len = (bytes.len() as u64).to_be_bytes();
    hasher.update(&len);
    hasher.update(bytes);
}

/// The digest with this run after the ones before: SHA-256 over the digest before, and of script, report and rates each the length and the bytes.
pub fn digest_with(before: &Sum, run: &Run) -> Sum {
    let mut hasher = Sha256::new();
    hasher.update(before);
    put(&mut hasher, run.script.as_slice());
    put(&mut hasher, run.report.as_slice());
    put(&mut hasher, run.rates.as_slice());
    hasher.finalize()
}
