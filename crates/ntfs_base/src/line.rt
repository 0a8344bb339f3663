use std::marker::Model;

/// Text of at most 512 bytes in a buffer of its own, which takes no memory. Contracts see its bytes.
#[derive(Drop)]
pub struct Line {
    bytes: [u8; 512],
    len: usize,
}

impl Model for Line {
    ghost use Rattle.std.specs.Prelude.{ℕ, List, take, ◌≤◌};

    ghost Value = { List ℕ };

    ghost view = { λ line. take line.len line.bytes };

    ghost invariant = { λ line. line.len ≤ 512 };
}

ghost use Rattle.std.specs.Prelude.{◌≡◌, ◌+◌, ◌≤◌, [], ◌∷◌, ◌++◌, length};
ghost use Rattle.std.specs.Fmt.{decimal};
ghost use Rattle.hex.specs.Hex.{encode_lower};

impl Line {
    /// An empty line.
    pub fn new() -> Line
        ensures { result ≡ [] }
    {
        Line {
            bytes: [0; 512],
            len: 0,
        }
    }

    /// The bytes of the line.
    pub fn as_bytes(&self) -> &[u8]
        ensures { result.now ≡ self.now }
    {
        &self.bytes[..self.len]
    }

    /// Appends the bytes.
    pub fn push(&mut self, text: &[u8])
        requires { length self.old + length text.now ≤ 512 }
        ensures value { self.new ≡ self.old ++ text.now }
        ensures room { length self.new ≡ length self.old + length text.now }
    {
        let end = self.len + text.len();
        self.bytes[self.len..end].copy_from_slice(text);
        self.len = end;
    }

    /// Appends a number in decimal digits, 20 at the most.
    pub fn push_number(&mut self, number: u64)
        requires { length self.old + 20 ≤ 512 }
        ensures value { self.new ≡ self.old ++ decimal number }
        ensures room { length self.new ≤ length self.old + 20 }
    {
        let mut digits = itoa::Buffer::new();
        self.push(digits.format(number).as_bytes());
    }

    /// Appends bytes in lower-case hexadecimal digits, two for each.
    pub fn push_hex(&mut self, bytes: &[u8])
        requires { length self.old + (length bytes.now + length bytes.now) ≤ 512 }
        ensures value { self.new ≡ self.old ++ encode_lower bytes.now }
        ensures room { length self.new ≡ length self.old + (length bytes.now + length bytes.now) }
    {
        let end = self.len + bytes.len() + bytes.len();
        let _ = hex::encode_to_slice(bytes, &mut self.bytes[self.len..end]);
        self.len = end;
    }
}
