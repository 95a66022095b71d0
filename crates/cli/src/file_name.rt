//! Names of files.

ghost use Rattle.std.specs.Prelude.{◌≡◌, IfOk, codes};
ghost use Rattle.std.specs.Str.{bytes_eq};

use base::NoMemory;
use std::alloc::Global;
use std::marker::Model;

/// The name of a file, as a line has it. A clause sees the list of its bytes.
#[derive(Debug, Drop)]
pub struct FileName {
    text: String,
}

impl Model for FileName {
    ghost use Rattle.std.specs.Prelude.{List, ℕ, string_bytes};

    ghost Value = { List ℕ };

    ghost view = { λ n. string_bytes n.text };
}

impl FileName {
    pub(crate) fn new(alloc: Global, text: &str) -> Result<FileName, NoMemory>
        ensures { IfOk result (λ name. name ≡ text.now) }
    {
        Ok(FileName {
            text: String::from_str(alloc, text)?,
        })
    }

    /// The text of the name.
    pub fn as_str(&self) -> &str
        ensures { result.now ≡ self.now }
    {
        self.text.as_str()
    }

    /// Whether it stands for standard input.
    pub fn is_standard_input(&self) -> bool
        ensures { result ≡ bytes_eq self.now (codes "-") }
    {
        self.as_str() == "-"
    }
}
