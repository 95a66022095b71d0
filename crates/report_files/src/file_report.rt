//! What one of several files came to.

use base::Text;

/// One of several files, and what it came to.
#[derive(Drop)]
pub struct FileReport {
    /// Its name, in UTF-8.
    pub name: Text,
    /// The exit status that it has alone.
    pub status: u8,
    /// The whole text of the answer, which ends with a line feed; none where the file could not be read.
    pub answer: Option<Text>,
}
