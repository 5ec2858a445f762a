// The processors for which code is made.

/// The processors for which code is made.
#[derive(Clone, Copy, Debug, PartialEq, Eq)]
pub enum Target {
    /// The first Alpha processors, without loads and stores of bytes and words.
    Original,
    /// Alpha processors with the byte-word extension.
    ByteWord,
}
