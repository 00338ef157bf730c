/// Why a text of a script is no command.
#[derive(Clone, Copy, Debug, PartialEq, Eq)]
pub enum ScriptFault {
    /// It has more bytes than a command may have.
    Long,
    /// It has no terminator, and this length.
    Unterminated(usize),
    /// The script goes on past the bytes that may be read.
    PastLimit,
}
