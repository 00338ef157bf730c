//! What the names of a formula are over.

use formula_resolve::Headers;
use named_systems::NamedSystems;

/// The headers of automata and words, and the sealed systems that these headers, the marks of a formula
/// and the default `msd_2` name.
#[derive(Drop)]
pub struct Names {
    /// What the tracks of automata and of words are over.
    pub headers: Headers,
    /// The systems by their names.
    pub systems: NamedSystems,
}
