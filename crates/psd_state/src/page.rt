//! A payload in the making: bytes that are filled from the front.
ghost use Rattle.std.specs.Prelude.{◌≡◌, ◌+◌, ◌≤◌, ◌++◌, [], length};

use std::marker::Model;

/// At most 209 bytes; contracts see those that were written.
#[derive(Drop)]
pub struct Page {
    bytes: [u8; 209],
    len: usize,
}

impl Model for Page {
    ghost use Rattle.std.specs.Prelude.{List, ℕ, take, ◌≤◌};

    ghost Value = { List ℕ };

    ghost view = { λ p. take p.len p.bytes };

    ghost invariant = { λ p. p.len ≤ 209 };
}

impl Page {
    pub fn new() -> Page
        ensures { result ≡ [] }
    {
        Page {
            bytes: [0; 209],
            len: 0,
        }
    }

    pub fn push(&mut self, part: &[u8])
        requires { length self.old + length part.now ≤ 209 }
        ensures { self.new ≡ self.old ++ part.now }
    {
        let end = self.len + part.len();
        self.bytes[self.len..end].copy_from_slice(part);
        self.len = end;
    }

    pub fn whole(&self) -> [u8; 209]
        requires { length self.now ≡ 209 }
        ensures { result ≡ self.now }
    {
        self.bytes
    }
}
