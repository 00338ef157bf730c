//! What names mean while plans are made.

use crate::library::Library;
use named_systems::NamedSystems;

/// The systems that names mean, and the relations and words.
#[derive(Clone, Copy)]
pub struct Known<'a> {
    /// The systems by their names.
    pub systems: &'a NamedSystems,
    /// The relations and words by their names.
    pub read: &'a Library,
}
