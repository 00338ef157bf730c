//! What the text of a command is refused for.

use digit_tuple::name::Name;

/// The part of a command that a fault is about. Bytes count from the part's begin.
#[derive(Clone, Copy, PartialEq, Eq)]
pub enum Grammar {
    /// The command itself.
    Command,
    /// The expression in its quotes.
    Regex,
    /// A text in which macros are called: the one in its quotes, an argument, or the text of a macro with its arguments.
    Macro,
    /// The formula in its quotes, in which macros are expanded.
    Formula,
    /// The rules in their quotes.
    Rules,
}

/// Why the text of a command is refused: its first word, the grammar of the command and of its quoted texts, its length, or its
/// calls of macros.
#[derive(Drop)]
pub enum TextRefusal {
    /// F01: its first word is none that a command has.
    Command,
    /// F02: no form goes on with what is at this byte; or the part ends too early, at its length.
    Syntax(Grammar, usize),
    /// F03: the connective at this byte is none that its chain goes on with.
    MixedChain(usize),
    /// F04: the number at this byte is out of its range.
    Number(Grammar, usize),
    /// F05: the `*` at this byte is before the second factor of a product that is no numeral.
    NotLinear(usize),
    /// F06: what opens at this byte is nested too deeply.
    Depth(Grammar, usize),
    /// F07: it has more bytes than this, or so has the text that it was to store.
    Long(usize),
    /// F08: the text of the macro of this name has a place of this number, for which a call with so many arguments has none.
    /// 2^64 - 1 where the number is greater.
    MacroArgs(Name, u64, usize),
    /// F09: a call of the macro of this name is within 16 others.
    MacroDepth(Name),
    /// F10: a text that macros make has more than 65,536 bytes, or so many calls were expanded.
    MacroLong,
}
