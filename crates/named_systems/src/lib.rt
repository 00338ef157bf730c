//! What the names of numeration systems mean: systems that are built in, and sealed ones under their names.
#![tactic(auto)]

/// Sealed systems by their names.
mod systems;

/// A system that is known.
mod known_system;

/// The system of a track, under its name.
mod track_system;

/// The systems of tracks, by their names.
mod track_systems;

/// The built-in systems that are kept, sealed.
mod sealed_systems;

pub use known_system::KnownSystem;
pub use sealed_systems::SealedSystems;
pub use systems::NamedSystems;
pub use track_system::{Meaning, TrackSystem};
pub use track_systems::{TrackSystems, TracksFault, system_named};
