//! A line that is written: at most 640 bytes, without the heap.
ghost use Rattle.std.specs.Prelude.{◌≡◌, ◌≤◌, ◌+◌, ◌∷◌, ◌++◌, [], length, decimal};
ghost use Rattle.em_trace.specs.Line.{spaced};

use arrayvec::ArrayVec;
use itoa::Buffer;
use std::marker::Model;

#[derive(Drop)]
pub(crate) struct Text {
    bytes: ArrayVec<u8, 640>,
}

impl Model for Text {
    ghost use Rattle.std.specs.Prelude.{List, ℕ};

    ghost Value = { List ℕ };

    ghost view = { λ text. text.bytes.items };
}

impl Text {
    pub(crate) fn new() -> Self
        ensures { result ≡ [] }
    {
        Text {
            bytes: ArrayVec::new(),
        }
    }

    pub(crate) fn as_slice(&self) -> &[u8]
        ensures value { result.now ≡ self.now }
        ensures short { length result.now ≤ 640 }
    {
        self.bytes.as_slice()
    }

    pub(crate) fn push(&mut self, byte: u8)
        requires { length self.old + 1 ≤ 640 }
        ensures text { self.new ≡ self.old ++ byte ∷ [] }
        ensures length { length self.new ≡ length self.old + 1 }
    {
        self.bytes.push(byte);
    }

    fn extend(&mut self, bytes: &[u8])
        requires { length self.old + length bytes.now ≤ 640 }
        ensures text { self.new ≡ self.old ++ bytes.now }
        ensures length { length self.new ≡ length self.old + length bytes.now }
    {
        let _ = self.bytes.try_extend_from_slice(bytes);
    }

    /// Digits, at most 20, without a space before them.
    pub(crate) fn digits(&mut self, n: u64)
        requires { length self.old + 20 ≤ 640 }
        ensures text { self.new ≡ self.old ++ decimal n }
        ensures length { length self.new ≤ length self.old + 20 }
    {
        let mut buffer = Buffer::new();
        self.extend(buffer.format(n).as_bytes());
    }

    /// A word of at most 11 bytes.
    pub(crate) fn word(&mut self, word: &str)
        requires short { length word.now ≤ 11 }
        requires room { length self.old + 12 ≤ 640 }
        ensures text { self.new ≡ self.old ++ spaced (word.now ∷ []) }
        ensures length { length self.new ≤ length self.old + 12 }
    {
        self.push(b' ');
        self.extend(word.as_bytes());
    }

    pub(crate) fn number(&mut self, n: u64)
        requires { length self.old + 22 ≤ 640 }
        ensures text { self.new ≡ self.old ++ spaced (decimal n ∷ []) }
        ensures length { length self.new ≤ length self.old + 22 }
    {
        self.push(b' ');
        self.digits(n);
    }

    /// A number behind a letter.
    pub(crate) fn marked(&mut self, mark: u8, n: u64)
        requires { length self.old + 22 ≤ 640 }
        ensures text { self.new ≡ self.old ++ spaced ((mark ∷ decimal n) ∷ []) }
        ensures length { length self.new ≤ length self.old + 22 }
    {
        self.push(b' ');
        self.push(mark);
        self.digits(n);
    }
}
