//! The sheet, and its four entries.
ghost use Rattle.std.specs.Prelude.{◌≡◌, ◌+◌, ◌<◌, [], ◌∷◌, flat_map, unsigned_abs, All};
ghost use Rattle.std.specs.Fmt.{decimal};
ghost use Rattle.audit_sheet.specs.Sheets as sheets;
ghost use Rattle.audit_sheet.specs.Sheets.{Adds, AddsMills, IsSafe, own_byte, own_bytes, escaped, shown_of};

use crate::grouping::put_dollars;
use audit_words::shown;
use std::alloc::{AllocError, Global};

/// A page on its way. Each byte of it is printable ASCII or a line end.
#[derive(Drop)]
pub struct Sheet {
    alloc: Global,
    bytes: Vec<u8>,
    /// Whether nothing is missing for lack of memory.
    is_whole: bool,
    /// Whether each amount has three decimals.
    has_mills: bool,
    ghost safe: { All IsSafe bytes.items },
}

// The byte, or a question mark in place of one that is neither printable ASCII nor a line end.
fn safe(byte: u8) -> u8
    ensures own { own_byte byte ≡ result ∷ [] }
    ensures safe { IsSafe result }
{
    if byte == 10 || byte >= 32 && byte < 127 {
        byte
    } else {
        b'?'
    }
}

impl Sheet {
    /// An empty page. With `has_mills` each amount has three decimals, otherwise each that is a whole cent has two.
    pub fn new(alloc: Global, has_mills: bool) -> Sheet {
        Sheet {
            alloc,
            bytes: Vec::new(alloc),
            is_whole: true,
            has_mills,
        }
    }

    // Puts a byte.
    fn put_byte(&mut self, byte: u8)
        ensures { Adds (own_byte byte) self.old.bytes.items self.new.bytes.items self.old.is_whole self.new.is_whole }
    {
        if !self.is_whole {
            return;
        }
        match self.bytes.push(safe(byte)) {
            Ok(()) => {}
            Err(_) => self.is_whole = false,
        }
    }

    // Puts the bytes.
    fn put_bytes(&mut self, bytes: &[u8])
        ensures { Adds (own_bytes bytes.now) self.old.bytes.items self.new.bytes.items self.old.is_whole self.new.is_whole }
    {
        for at in 0..bytes.len() {
            self.put_byte(bytes[at]);
        }
    }

    // Puts a byte of an input: a character that could be markup as its entity.
    fn put_escaped(&mut self, byte: u8)
        ensures { Adds (escaped byte) self.old.bytes.items self.new.bytes.items self.old.is_whole self.new.is_whole }
    {
        match byte {
            b'<' => self.put_bytes(b"&lt;"),
            b'>' => self.put_bytes(b"&gt;"),
            b'&' => self.put_bytes(b"&amp;"),
            b'"' => self.put_bytes(b"&quot;"),
            b'\'' => self.put_bytes(b"&#39;"),
            _ => self.put_byte(byte),
        }
    }

    // Puts bytes of an input.
    fn put_all_escaped(&mut self, bytes: &[u8])
        ensures { Adds (flat_map escaped bytes.now) self.old.bytes.items self.new.bytes.items self.old.is_whole self.new.is_whole }
    {
        for at in 0..bytes.len() {
            self.put_escaped(bytes[at]);
        }
    }

    // Puts a text that is shown, cut in the middle to so many characters.
    fn put_cut(&mut self, text: &[u8], most: usize)
        ensures { Adds (sheets.put_cut text.now most) self.old.bytes.items self.new.bytes.items self.old.is_whole self.new.is_whole }
    {
        let len = text.len();
        if len <= most {
            return self.put_all_escaped(text);
        }
        let half = most.saturating_sub(2) / 2;
        self.put_all_escaped(&text[..half]);
        self.put_bytes(b"..");
        self.put_all_escaped(&text[len - half..]);
    }

    /// Puts markup or words of the program.
    pub fn put_own(&mut self, own: &'static str)
        ensures { Adds (own_bytes own.now) self.old.bytes.items self.new.bytes.items self.old.is_whole self.new.is_whole }
    {
        self.put_bytes(own.as_bytes());
    }

    /// Puts a text of an input: bytes that are no printable ASCII as `\xNN`, cut in the middle to so many characters, and nothing that could be markup.
    pub fn put_text(&mut self, text: &[u8], most: usize)
        ensures { Adds (shown_of text.now most) self.old.bytes.items self.new.bytes.items self.old.is_whole self.new.is_whole }
    {
        match shown(self.alloc, text) {
            Ok(text) => self.put_cut(text.as_bytes(), most),
            Err(_) => self.is_whole = false,
        }
    }

    // Puts a digit.
    #[tactic(auto, using(crate::proofs::Adding::digit_own))]
    fn put_digit(&mut self, digit: u64)
        requires { digit < 10 }
        ensures { Adds ((48 + digit) ∷ []) self.old.bytes.items self.new.bytes.items self.old.is_whole self.new.is_whole }
    {
        self.put_byte(48 + digit as u8);
    }

    /// Puts the digits of a number.
    #[tactic(auto, using(crate::proofs::Adding::decimal_one, crate::proofs::Adding::decimal_more))]
    pub fn put_number(&mut self, number: u64)
        ensures { Adds (decimal number) self.old.bytes.items self.new.bytes.items self.old.is_whole self.new.is_whole }
    {
        if number < 10 {
            return self.put_digit(number);
        }
        self.put_number(number / 10);
        self.put_digit(number % 10);
    }

    /// Puts an amount in dollars. Nothing is rounded.
    #[tactic(auto, using(crate::proofs::Reading::with_minus))]
    pub fn put_mills(&mut self, mills: i128)
        ensures { AddsMills (unsigned_abs mills) self.old.bytes.items self.new.bytes.items self.old.is_whole self.new.is_whole }
    {
        let has_mills = self.has_mills;
        if mills >= 0 {
            return put_dollars(self, mills.unsigned_abs(), has_mills);
        }
        self.put_own("&minus;");
        put_dollars(self, mills.unsigned_abs(), has_mills);
    }

    /// The allocator.
    pub fn alloc(&self) -> Global {
        self.alloc
    }

    /// Keeps that something is missing for lack of memory.
    pub fn lose(&mut self) {
        self.is_whole = false;
    }

    /// The bytes of the page. AllocError if something is missing for lack of memory.
    pub fn end(self) -> Result<Vec<u8>, AllocError> {
        if self.is_whole {
            Ok(self.bytes)
        } else {
            Err(AllocError)
        }
    }
}
