//! What opens files.

use base_io::Source;
use cli::FileName;

/// Opens files by their names.
pub trait Opener {
    /// An open file. Of one that cannot be opened the first read fails.
    type File: Source + Drop;

    fn open(&mut self, name: &FileName) -> Self::File;

    /// Is told which file could not be read.
    fn unread(&mut self, name: &FileName);
}
