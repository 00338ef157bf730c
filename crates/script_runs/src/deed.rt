/// What an accepted command does.
#[derive(Drop)]
pub enum Deed {
    /// It makes something, and these bytes are printed.
    Enters(Vec<u8>),
    /// The commands of this text come next, and then those after it.
    Loads(Vec<u8>),
    /// The run ends.
    Ends,
}
