//! The text of a file.

ghost use Rattle.std.specs.Prelude.{◌≡◌, ℕ, List};

use std::marker::Model;

/// The text of a file, seen as its bytes.
#[derive(Drop)]
pub struct FileText {
    bytes: Vec<u8>,
}

impl Model for FileText {
    ghost Value = { List ℕ };

    ghost view = { λ t. t.bytes.items };
}

impl FileText {
    /// The text of these bytes.
    pub fn new(bytes: Vec<u8>) -> Self
        ensures { result ≡ bytes.items }
    {
        FileText { bytes }
    }

    /// The bytes.
    pub fn as_bytes(&self) -> &[u8]
        ensures { result.now ≡ self.now }
    {
        &self.bytes
    }
}
