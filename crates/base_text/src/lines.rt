//! What is printed.

ghost use Rattle.std.specs.Prelude.{◌≡◌, ◌∷◌, [], ◌++◌, OnOk, OnErr, List, ℕ};
ghost use Rattle.std.specs.Fmt.{decimal};
ghost use Rattle.base_text.specs.HexLines.{hex_lines};

use crate::cut::cut_back;
use crate::digits::add_lines;
use base::{NoMemory, Text};
use itoa::Buffer;

/// Exact bytes at the end of a text. Where a call finds no memory, the text is as before.
pub trait Lines {
    /// The bytes so far.
    ghost text: { Self → List ℕ };

    /// Adds bytes as they are.
    fn word(&mut self, word: &[u8]) -> Result<(), NoMemory>
        ensures ok { OnOk result (text self.new ≡ text self.old ++ word.now) }
        ensures err { OnErr result (text self.new ≡ text self.old) };

    /// Adds a number in decimal, without leading zeros.
    fn number(&mut self, n: u64) -> Result<(), NoMemory>
        ensures ok { OnOk result (text self.new ≡ text self.old ++ decimal n) }
        ensures err { OnErr result (text self.new ≡ text self.old) };

    /// Adds two lower-case hexadecimal digits a byte, in lines of 32 bytes.
    fn hex_lines(&mut self, bytes: &[u8]) -> Result<(), NoMemory>
        ensures ok { OnOk result (text self.new ≡ text self.old ++ hex_lines bytes.now) }
        ensures err { OnErr result (text self.new ≡ text self.old) };

    /// Adds a line feed.
    fn end_line(&mut self) -> Result<(), NoMemory>
        ensures ok { OnOk result (text self.new ≡ text self.old ++ 10 ∷ []) }
        ensures err { OnErr result (text self.new ≡ text self.old) };
}

impl Lines for Text {
    ghost text = { λ t. t };

    fn word(&mut self, word: &[u8]) -> Result<(), NoMemory> {
        self.extend_from_slice(word)
    }

    fn number(&mut self, n: u64) -> Result<(), NoMemory> {
        self.extend_from_slice(Buffer::new().format(n).as_bytes())
    }

    fn hex_lines(&mut self, bytes: &[u8]) -> Result<(), NoMemory> {
        let before = self.len();
        if add_lines(self, bytes).is_err() {
            cut_back(self, before);
            return Err(NoMemory);
        }
        Ok(())
    }

    fn end_line(&mut self) -> Result<(), NoMemory> {
        self.push(b'\n')
    }
}
