//! Results of one step of a construction.

/// What a construction made, and its width: how many kinds of words it distinguished.
#[derive(Drop)]
pub struct Stepped<T> {
    pub result: T,
    pub width: u32,
}
