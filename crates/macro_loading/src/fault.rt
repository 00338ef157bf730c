//! Why a text is not expanded by the macros of a store.

use dfa_loading::LoadFault;
use digit_tuple::name::Name;

/// Why a text is not expanded.
#[derive(Drop)]
pub enum ExpansionFault {
    /// With the `#` at this byte no call begins. Bytes count from 0 in the text that is expanded: in an argument from
    /// the argument's begin, in a macro's text where the arguments are in it.
    Syntax(usize),
    /// The macro's text has a place for which the arguments of its call are too few.
    MacroArgs {
        /// The macro's name.
        name: Name,
        /// The number of the first such place; 2^64 - 1 means each greater one.
        place: u64,
        /// How many arguments the call has.
        given: usize,
    },
    /// A call of the macro is within 16 others.
    MacroDepth(Name),
    /// A text would have more than 65,536 bytes, or a call would be the 65,537th.
    MacroLong,
    /// The text of a macro that is called was not loaded.
    Load(LoadFault),
}
