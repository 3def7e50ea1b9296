//! A text that grows by lines of tokens.
ghost use Rattle.std.specs.Prelude.{◌≡◌, ◌∷◌, ◌++◌, [], decimal, IfOk, OnOk};
ghost use Rattle.em_script.specs.Lines.{spaced};

use em_log::NoMemory;
use itoa::Buffer;
use std::alloc::Global;
use std::marker::Model;

#[derive(Drop)]
pub(crate) struct Text {
    bytes: Vec<u8>,
}

impl Model for Text {
    ghost use Rattle.std.specs.Prelude.{List, ℕ};

    ghost Value = { List ℕ };

    ghost view = { λ text. text.bytes.items };
}

impl Text {
    pub(crate) fn new(alloc: Global) -> Self
        ensures { result ≡ [] }
    {
        Text {
            bytes: Vec::new(alloc),
        }
    }

    pub(crate) fn into_bytes(self) -> Vec<u8>
        ensures { result.items ≡ self }
    {
        self.bytes
    }

    fn extend(&mut self, bytes: &[u8]) -> Result<(), NoMemory>
        ensures { OnOk result (self.new ≡ self.old ++ bytes.now) }
    {
        match self.bytes.extend_from_slice(bytes) {
            Ok(()) => Ok(()),
            Err(_) => Err(NoMemory),
        }
    }

    /// The first token of a line.
    pub(crate) fn begin(&mut self, word: &str) -> Result<(), NoMemory>
        ensures { OnOk result (self.new ≡ self.old ++ word.now) }
    {
        self.extend(word.as_bytes())
    }

    /// A further token.
    pub(crate) fn word(&mut self, word: &str) -> Result<(), NoMemory>
        ensures { OnOk result (self.new ≡ self.old ++ spaced (word.now ∷ [])) }
    {
        self.extend(b" ")?;
        self.extend(word.as_bytes())
    }

    pub(crate) fn number(&mut self, n: u64) -> Result<(), NoMemory>
        ensures { OnOk result (self.new ≡ self.old ++ spaced (decimal n ∷ [])) }
    {
        let mut buffer = Buffer::new();
        self.word(buffer.format(n))
    }

    /// A variable: its number behind a letter.
    pub(crate) fn variable(&mut self, v: u8) -> Result<(), NoMemory>
        ensures { OnOk result (self.new ≡ self.old ++ spaced ((118 ∷ decimal v) ∷ [])) }
    {
        let mut buffer = Buffer::new();
        self.extend(b" v")?;
        self.extend(buffer.format(v).as_bytes())
    }

    /// The end of a line.
    pub(crate) fn end(&mut self) -> Result<(), NoMemory>
        ensures { OnOk result (self.new ≡ self.old ++ 10 ∷ []) }
    {
        self.extend(b"\n")
    }
}
