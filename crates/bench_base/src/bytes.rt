//! Bytes of a bounded length that are copied with the value that holds them.
ghost use Rattle.std.specs.Prelude.{◌≡◌, ◌≤◌, ◌↔◌, length, IsSome, IfSome};

use std::marker::Model;

/// At most 87 bytes: a message.
#[derive(Clone, Copy)]
pub struct Note {
    bytes: [u8; 87],
    len: u8,
}

impl Model for Note {
    ghost use Rattle.std.specs.Prelude.{List, ℕ, ◌-◌, take, ◌++◌, length, replicate};
    ghost use Rattle.bench_base.specs.Padded.{IsPadded, refill};

    ghost Value = { List ℕ };

    ghost view = { λ n. take n.len n.bytes };

    ghost invariant = { λ n. IsPadded 87 n.len n.bytes };

    ghost inverse = { λ xs. record { bytes = xs ++ replicate (87 - length xs) 0; len = length xs } };

    ghost inverse_ok = { λ n h. refill 87 n.len n.bytes (λ b l. record { bytes = b; len = l }) h };
}

impl Note {
    /// The note of bytes that are known to fit.
    pub fn of(bytes: &[u8]) -> Note
        requires { length bytes.now ≤ 87 }
        ensures { result ≡ bytes.now }
    {
        let mut padded = [0; 87];
        padded[..bytes.len()].copy_from_slice(bytes);
        Note {
            bytes: padded,
            len: bytes.len() as u8,
        }
    }

    /// The note of these bytes; None if and only if there are more than 87.
    pub fn new(bytes: &[u8]) -> Option<Note>
        ensures valid { IsSome result ↔ (length bytes.now ≤ 87) }
        ensures value { IfSome result (λ n. n ≡ bytes.now) }
    {
        if bytes.len() > 87 {
            return None;
        }
        Some(Note::of(bytes))
    }

    pub fn as_slice(&self) -> &[u8]
        ensures { result.now ≡ self.now }
    {
        &self.bytes[..self.len as usize]
    }
}

/// At most 256 bytes: what a script may hand to a node.
#[derive(Clone, Copy)]
pub struct Given {
    bytes: [u8; 256],
    len: u16,
}

impl Model for Given {
    ghost use Rattle.std.specs.Prelude.{List, ℕ, ◌-◌, take, ◌++◌, length, replicate};
    ghost use Rattle.bench_base.specs.Padded.{IsPadded, refill};

    ghost Value = { List ℕ };

    ghost view = { λ n. take n.len n.bytes };

    ghost invariant = { λ n. IsPadded 256 n.len n.bytes };

    ghost inverse = { λ xs. record { bytes = xs ++ replicate (256 - length xs) 0; len = length xs } };

    ghost inverse_ok = { λ n h. refill 256 n.len n.bytes (λ b l. record { bytes = b; len = l }) h };
}

impl Given {
    /// The bytes, where they fit; None if and only if there are more than 256.
    pub fn new(bytes: &[u8]) -> Option<Given>
        ensures valid { IsSome result ↔ (length bytes.now ≤ 256) }
        ensures value { IfSome result (λ n. n ≡ bytes.now) }
    {
        if bytes.len() > 256 {
            return None;
        }
        let mut padded = [0; 256];
        padded[..bytes.len()].copy_from_slice(bytes);
        Some(Given {
            bytes: padded,
            len: bytes.len() as u16,
        })
    }

    pub fn as_slice(&self) -> &[u8]
        ensures { result.now ≡ self.now }
    {
        &self.bytes[..self.len as usize]
    }
}
