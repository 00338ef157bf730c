//! What the systems of a command are refused for.

use adder_check::admit_fault::Law;
use digit_tuple::name::Name;

/// Why the systems of a command are refused.
#[derive(Drop)]
pub enum SystemRefusal {
    /// F14: there is no system of this name, or no file of a user's system.
    SystemUnknown(Name),
    /// F15: the system of this name is not admitted: this law is the first that does not hold.
    NotAdmitted(Name, Law),
    /// F16: this variable is over two systems: that of its first occurrence, and the first one that differs.
    Clash(Name, Name, Name),
    /// F17: its first system, and the first later one of the other direction.
    Direction(Name, Name),
}
