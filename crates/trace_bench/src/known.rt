//! What was sent and released in all runs: kept as it comes, and found by its bytes once it is asked for. And which of the marks that were
//! seen on mail were debited.
ghost use Rattle.std.specs.Prelude.{◌≡◌, ◌↔◌, ◌||◌, ℕ, List, [], IsTrue, OnOk};
ghost use Rattle.trace_bench.specs.Known as known;
ghost use Rattle.trace_bench.specs.Known.{Learns, Puts, HasSame, IsAllFound, IsBlank, has_by, is_among, kept_of};

use bench_base::bytes::Note;
use std::alloc::{AllocError, Global};
use std::collections::HashSet;
use trace_seen::SeenMarks;

/// Bytes that are kept by value.
pub trait AsBytes: Copy + Drop {
    /// What they are.
    ghost bytes_of: { Self → List ℕ };

    fn as_bytes(&self) -> &[u8]
        ensures { result.now ≡ bytes_of self.now };
}

impl AsBytes for Note {
    ghost bytes_of = { λ message. message };

    fn as_bytes(&self) -> &[u8] {
        self.as_slice()
    }
}

impl AsBytes for [u8; 64] {
    ghost bytes_of = { λ mark. mark };

    fn as_bytes(&self) -> &[u8] {
        &self[..]
    }
}

/// Bytes that are kept: as they came, in a list, until it is asked for some; from then on in a set, where each is found by its hash.
#[derive(Drop)]
pub struct ByteSet<K> {
    pub(crate) list: Vec<K>,
    pub(crate) set: HashSet<Vec<u8>>,
}

// Whether one of these has the bytes.
fn is_listed<K: AsBytes>(list: &[K], bytes: &[u8]) -> bool
    ensures { result ≡ is_among K.bytes_of bytes.now list.now }
{
    list.iter().any(|kept| kept.as_bytes() == bytes)
}

// Puts each of these into the set too.
fn put_all<K: AsBytes>(
    alloc: Global,
    list: &[K],
    set: &mut HashSet<Vec<u8>>,
) -> Result<(), AllocError>
    ensures same { (bytes : List ℕ) → IsTrue (is_among K.bytes_of bytes list.now || is_among (λ k. k.items) bytes set.new.keys)
        ↔ IsTrue (is_among K.bytes_of bytes list.now || is_among (λ k. k.items) bytes set.old.keys) }
    ensures all { OnOk result ((bytes : List ℕ) → IsTrue (is_among K.bytes_of bytes list.now) → IsTrue (is_among (λ k. k.items) bytes set.new.keys)) }
{
    for place in 0..list.len() {
        let bytes = Vec::from_slice(alloc, list[place].as_bytes())?;
        set.insert(bytes)?;
    }
    Ok(())
}

impl<K: AsBytes> ByteSet<K> {
    pub(crate) fn new(alloc: Global) -> ByteSet<K>
        ensures { known.IsEmpty K.bytes_of result }
    {
        ByteSet {
            list: Vec::new(alloc),
            set: HashSet::new(alloc),
        }
    }

    // The search is by the hash, if nothing is listed.
    pub(crate) fn has(&self, bytes: &[u8]) -> bool
        ensures { result ≡ has_by K.bytes_of bytes.now self.now }
    {
        is_listed(&self.list, bytes) || self.set.contains(bytes)
    }

    pub(crate) fn put(&mut self, kept: K) -> Result<(), AllocError>
        ensures { OnOk result (Puts K.bytes_of (K.bytes_of kept) self.old self.new) }
    {
        self.list.push(kept)?;
        Ok(())
    }

    // Moves what is listed into the set, and gives the room of the list back.
    pub(crate) fn index(&mut self, alloc: Global) -> Result<(), AllocError>
        ensures same { HasSame K.bytes_of self.old self.new }
        ensures found { OnOk result (IsAllFound self.new) }
    {
        put_all(alloc, &self.list, &mut self.set)?;
        self.list = Vec::new(alloc);
        Ok(())
    }
}

/// The messages that were sent and the marks that were released, over all runs, if they are kept; and marks that were seen, each with whether it was debited.
#[derive(Drop)]
pub struct Known {
    pub(crate) is_kept: bool,
    pub(crate) sent: ByteSet<Note>,
    pub(crate) released: ByteSet<[u8; 64]>,
    pub(crate) seen: SeenMarks,
}

impl Known {
    pub(crate) fn new(alloc: Global, is_kept: bool) -> Known
        ensures blank { IsBlank result }
        ensures kept { kept_of result ≡ record { all = is_kept; seen = [] } }
    {
        Known {
            is_kept,
            sent: ByteSet::new(alloc),
            released: ByteSet::new(alloc),
            seen: SeenMarks::new(alloc),
        }
    }

    // Keeps what an event sent and released, if that is kept.
    pub(crate) fn learn(
        &mut self,
        sent: &Option<Note>,
        released: &Option<[u8; 64]>,
    ) -> Result<(), AllocError>
        ensures kept { kept_of self.new ≡ kept_of self.old }
        ensures seen { self.new.seen ≡ self.old.seen }
        ensures learns { OnOk result (Learns sent.now released.now self.old self.new) }
    {
        if !self.is_kept {
            return Ok(());
        }
        if let Some(note) = sent {
            self.sent.put(*note)?;
        }
        if let Some(mark) = released {
            self.released.put(*mark)?;
        }
        Ok(())
    }
}
