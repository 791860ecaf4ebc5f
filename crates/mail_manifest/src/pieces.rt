//! The pieces of a manifest: one is added, and its code and postage are computed.
ghost use Rattle.std.specs.Prelude.{◌≡◌, ◌<◌, ◌≤◌, ◌+◌, ◌*◌, ◌++◌, length, take, drop, vec_capacity, IfOk, IfErr};
ghost use Rattle.mail_manifest.specs.Held.{listed};
ghost use Rattle.mail_manifest.specs.Listings.{IsOpening, head_part, opened, with_mark, code_of, mark_at, AllRead, IsFirstUnread, postage_in_all};

use crate::manifest::Manifest;
use crate::opening::Opening;
use bench_base::fields::{put_u16, put_u32, put_u64};
use hmac_core::hmac256;
use indicium::read_indicium;
use std::alloc::{AllocError, Global};

// The bytes before the marks: count, total and first number.
const HEAD: usize = 14;

// The bytes of a mark.
const MARK: usize = 64;

#[tactic(auto, unfolding(bench_base::specs::Table::spelled, crate::specs::Listings::head_part))]
fn head_bytes(opening: &Opening) -> [u8; 14]
    ensures { result ≡ head_part opening.now }
{
    let mut bytes = [0; 14];
    put_u16(&mut bytes, 0, opening.count);
    put_u64(&mut bytes, 2, opening.total);
    put_u32(&mut bytes, 10, opening.first);
    bytes
}

// Adds a mark to a text that has room for it.
fn put_mark(text: &mut Vec<u8>, mark: &[u8; 64])
    requires room { length text.old.items + 64 ≤ vec_capacity text.old }
    ensures items { text.new.items ≡ text.old.items ++ mark.now }
    ensures room { vec_capacity text.old ≤ vec_capacity text.new }
{
    let _ = text.extend_from_slice(mark);
}

// The mark that begins at this byte.
fn mark_in(text: &[u8], at: usize) -> [u8; 64]
    requires { at + 64 ≤ length text.now }
    ensures { result ≡ take 64 (drop at text.now) }
{
    let mut mark = [0; 64];
    mark.copy_from_slice(&text[at..at + MARK]);
    mark
}

impl Manifest {
    /// A manifest without pieces, with room for all that it is to have.
    pub(crate) fn open(alloc: Global, opening: Opening) -> Result<Manifest, AllocError>
        requires range { IsOpening opening }
        ensures { IfOk result (λ m. listed m ≡ opened opening) }
    {
        let mut text = Vec::with_capacity(alloc, HEAD + MARK * usize::from(opening.count))?;
        let _ = text.extend_from_slice(&head_bytes(&opening));
        Ok(Manifest {
            opening,
            text,
            pieces: 0,
        })
    }

    /// How many pieces there are so far.
    pub(crate) fn pieces(&self) -> u16
        ensures as_many { result ≡ length (listed self.now).marks }
        ensures few { result ≤ (listed self.now).opening.count }
    {
        self.pieces
    }

    /// Adds a piece.
    pub(crate) fn add(&mut self, mark: &[u8; 64])
        requires room { length (listed self.old).marks < (listed self.old).opening.count }
        ensures { listed self.new ≡ with_mark (listed self.old) mark.now }
    {
        put_mark(&mut self.text, mark);
        self.pieces += 1;
    }

    /// The code over what it was opened with and its pieces so far.
    pub(crate) fn code(&self) -> [u8; 32]
        ensures { result ≡ code_of (listed self.now) }
    {
        hmac256(&self.opening.key, &self.text)
    }

    /// The number under which the piece at this place, counted from 0, is scanned.
    pub(crate) fn number(&self, at: u16) -> u32
        requires inside { at < length (listed self.now).marks }
        ensures value { result ≡ (listed self.now).opening.first + at }
        ensures first { 1 ≤ result }
    {
        self.opening.first + u32::from(at)
    }

    /// The mark of the piece at this place, counted from 0.
    pub(crate) fn mark(&self, at: u16) -> [u8; 64]
        requires inside { at < length (listed self.now).marks }
        ensures { result ≡ mark_at (listed self.now) at }
    {
        mark_in(&self.text, HEAD + MARK * usize::from(at))
    }

    /// The postage of all pieces, in mills; or the number, from 1, of the first piece with a mark that does not read.
    pub(crate) fn postage(&self) -> Result<u64, u16>
        ensures read { IfOk result (λ sum. AllRead (listed self.now) × (sum ≡ postage_in_all (listed self.now))) }
        ensures unread { IfErr result (λ number. IsFirstUnread number (listed self.now)) }
    {
        let mut sum = 0;
        for at in 0..self.pieces() {
            match read_indicium(&self.mark(at)) {
                Ok((mark, _)) => sum += u64::from(mark.postage),
                Err(_) => return Err(at + 1),
            }
        }
        Ok(sum)
    }
}
