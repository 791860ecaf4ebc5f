//! What the words of a line read as.
ghost use Rattle.std.specs.Prelude.{◌≡◌, ◌≢◌, ℕ, List, ◌<◌, ◌≤◌, ◌^◌, codes, decimal, length, [], IfSome, IfNone};
ghost use Rattle.bench_base.specs.Table.{IsBytes};
ghost use Rattle.script_words.specs.Words.{device_word, node_word, hex_word, byte_word, given_word, kind_word};
ghost use Rattle.bench_base.specs.Ranges.{IsDevice, IsCustomer, IsNode, IsKey, IsGiven};

use crate::digits::{number, read_hex};
use crate::wide::wide_number;
use crate::word::{Word, after};
use bench_base::bytes::Given;
use bench_base::numbers::{Customer, DevNo};
use bench_base::words::{Key, Kind, Node};

impl Word for u32 {
    ghost text = { decimal };

    ghost fits = { λ n. n < 2 ^ 32 };

    fn read(word: &[u8]) -> Option<u32> {
        let value = number(word)?;
        if value > 0xffff_ffff {
            return None;
        }
        Some(value as u32)
    }
}

impl Word for u64 {
    ghost text = { decimal };

    ghost fits = { λ n. n < 2 ^ 64 };

    fn read(word: &[u8]) -> Option<u64> {
        wide_number(word)
    }
}

impl Word for u16 {
    ghost text = { decimal };

    ghost fits = { λ n. n < 2 ^ 16 };

    fn read(word: &[u8]) -> Option<u16> {
        let value = number(word)?;
        if value > 0xffff {
            return None;
        }
        Some(value as u16)
    }
}

impl Word for Customer {
    ghost text = { decimal };

    ghost fits = { IsCustomer };

    fn read(word: &[u8]) -> Option<Customer> {
        let value = u32::read(word)?;
        Customer::new(value)
    }
}

impl Word for DevNo {
    ghost text = { device_word };

    ghost fits = { IsDevice };

    fn read(word: &[u8]) -> Option<DevNo> {
        let digits = after(word, b"d")?;
        let value = u32::read(digits)?;
        DevNo::new(value)
    }
}

impl Word for Node {
    ghost text = { node_word };

    ghost fits = { IsNode };

    fn read(word: &[u8]) -> Option<Node> {
        if word == b"centre".as_slice() {
            return Some(Node::Centre);
        }
        if word == b"host".as_slice() {
            return Some(Node::Host);
        }
        if word == b"verifier".as_slice() {
            return Some(Node::Verifier);
        }
        let device = DevNo::read(word)?;
        Some(Node::Device(device))
    }
}

impl Word for Key {
    ghost text = { hex_word };

    ghost fits = { IsKey };

    fn read(word: &[u8]) -> Option<Key> {
        let mut key = [0; 32];
        if read_hex(word, &mut key) {
            Some(key)
        } else {
            None
        }
    }
}

/// A byte that is written as two digits.
#[derive(Clone, Copy)]
pub struct Byte(pub u8);

impl Word for Byte {
    ghost text = { λ b. byte_word b.0 };

    ghost fits = { λ b. b.0 < 2 ^ 8 };

    fn read(word: &[u8]) -> Option<Byte> {
        let mut byte = [0];
        if read_hex(word, &mut byte) {
            Some(Byte(byte[0]))
        } else {
            None
        }
    }
}

// The bytes of this word, as many as there is room for.
fn read_bytes(word: &[u8], room: &mut [u8]) -> Option<Given>
    requires { (1 ≤ length room.old) × (length room.old ≤ 256) }
    ensures found { IfSome result (λ g. IsGiven g × (word.now ≡ given_word g)) }
    ensures none { IfNone result ((bytes : List ℕ) → length bytes ≡ length room.old → IsBytes bytes → word.now ≢ hex_word bytes) }
{
    if read_hex(word, room) {
        Given::new(room)
    } else {
        None
    }
}

impl Word for Given {
    ghost text = { given_word };

    ghost fits = { IsGiven };

    fn read(word: &[u8]) -> Option<Given> {
        if word == b"-".as_slice() {
            return Given::new(&[]);
        }
        let count = word.len() / 2;
        if count < 1 || count > 256 {
            return None;
        }
        let mut bytes = [0; 256];
        read_bytes(word, &mut bytes[..count])
    }
}

impl Word for Kind {
    ghost text = { kind_word };

    ghost fits = { λ k. Unit {0} };

    fn read(word: &[u8]) -> Option<Kind> {
        if word == b"enrol".as_slice() {
            return Some(Kind::Enrol);
        }
        if word == b"reset".as_slice() {
            return Some(Kind::Reset);
        }
        if word == b"audit".as_slice() {
            return Some(Kind::Audit);
        }
        if word == b"refund".as_slice() {
            return Some(Kind::Refund);
        }
        if word == b"withdraw".as_slice() {
            return Some(Kind::Withdraw);
        }
        None
    }
}

/// The word `msg`.
#[derive(Clone, Copy)]
pub struct Msg;

impl Word for Msg {
    ghost text = { λ m. codes "msg" };

    ghost fits = { λ m. Unit {0} };

    fn read(word: &[u8]) -> Option<Msg> {
        if word == b"msg".as_slice() {
            Some(Msg)
        } else {
            None
        }
    }
}

/// The word `hex`.
#[derive(Clone, Copy)]
pub struct Hex;

impl Word for Hex {
    ghost text = { λ m. codes "hex" };

    ghost fits = { λ m. Unit {0} };

    fn read(word: &[u8]) -> Option<Hex> {
        if word == b"hex".as_slice() {
            Some(Hex)
        } else {
            None
        }
    }
}
