//! The messages of a device's row, as its payload keeps them.
ghost use Rattle.std.specs.Prelude.{◌≡◌, ◌≤◌, IfSome, IfNone, ℕ, List, length};
ghost use Rattle.centre_ledger.specs.Payload as layout;
ghost use Rattle.centre_ledger.specs.Parts as parts;
ghost use Rattle.centre_ledger.specs.Parts.{IsSpelled, IsNoted, IsStored};

use crate::page::is_zero;
use bench_base::bytes::Note;
use hmac_core::ReadyKey;
use psd_wire::{read_body, read_under_by, write_message_by};

/// A message without its code.
pub fn uncoded(note: &Note) -> &[u8]
    ensures { result.now ≡ layout.uncoded note.now }
{
    let bytes = note.as_slice();
    &bytes[..bytes.len().saturating_sub(32)]
}

/// How many of the bytes are the Request, in a row of this version. The first of the bytes is the Request's own version.
pub fn request_front(version: u8, first: u8) -> usize
    ensures value { result ≡ parts.request_front version first }
    ensures most { result ≤ layout.request_size version }
{
    match (version, first) {
        (1, _) => 71,
        (_, 1) => 39,
        _ => 55,
    }
}

/// How many of the bytes are the Reply, as for `request_front`.
pub fn reply_front(version: u8, first: u8) -> usize
    ensures value { result ≡ parts.reply_front version first }
    ensures most { result ≤ layout.reply_size version }
{
    match (version, first) {
        (1, _) => 56,
        (_, 1) => 24,
        _ => 28,
    }
}

/// The message that is kept in the first bytes, with its code; no bytes before the first ruling.
pub fn stored(version: u8, ruled: u32, front: usize, bytes: &[u8], key: &ReadyKey) -> Option<Note>
    requires front { front ≤ length bytes.now }
    requires size { front ≤ 87 }
    ensures found { IfSome result (λ note. IsStored version ruled front key.now bytes.now note) }
    ensures none { IfNone result ((note : List ℕ) → IsStored version ruled front key.now bytes.now note → ⊥) }
{
    if ruled > 0 {
        return kept(version, front, bytes, key);
    }
    if is_zero(bytes) {
        Some(Note::of(&[]))
    } else {
        None
    }
}

// The message that is kept in the first bytes; zeros follow.
fn kept(version: u8, front: usize, bytes: &[u8], key: &ReadyKey) -> Option<Note>
    requires front { front ≤ length bytes.now }
    requires size { front ≤ 87 }
    ensures found { IfSome result (λ note. IsNoted version front key.now bytes.now note) }
    ensures none { IfNone result ((note : List ℕ) → IsNoted version front key.now bytes.now note → ⊥) }
{
    if !is_zero(&bytes[front..]) {
        return None;
    }
    if version == 1 {
        with_code(&bytes[..front], key)
    } else {
        without_code(&bytes[..front], key)
    }
}

// The message of these bytes, if its code is right.
fn with_code(bytes: &[u8], key: &ReadyKey) -> Option<Note>
    requires { length bytes.now ≤ 87 }
    ensures found { IfSome result (λ note. IsSpelled key.now note × (note ≡ bytes.now)) }
    ensures none { IfNone result (IsSpelled key.now bytes.now → ⊥) }
{
    match read_under_by(bytes, key) {
        Some(_) => Some(Note::of(bytes)),
        None => None,
    }
}

// The message of these bytes, to which its code is added.
fn without_code(bytes: &[u8], key: &ReadyKey) -> Option<Note>
    ensures found { IfSome result (λ note. IsSpelled key.now note × (layout.uncoded note ≡ bytes.now)) }
    ensures none { IfNone result ((note : List ℕ) → IsSpelled key.now note → layout.uncoded note ≡ bytes.now → ⊥) }
{
    match read_body(bytes) {
        Some(message) => Some(write_message_by(&message, key)),
        None => None,
    }
}
