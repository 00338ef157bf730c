//! Tables as texts. The proof of a function goes over each text of a static table with all the bytes before it, and over one
//! text once. So a table is one text, which is cut where its rows and their fields end.

use wal_outside::Folder;

/// The text of a table, whose rows are lists of literals: a text, a folder where there is one, and further fields, of which the
/// last ones may be in a list of their own.
macro_rules! table {
    ($((
        $first:literal
        $(, Folder::$folder:ident)?
        $(, $field:literal)*
        $(, ($inner:literal $(, $further:literal)* $(,)?))?
        $(,)?
    )),* $(,)?) => {
        concat!($(
            $first,
            $("\u{1f}", stringify!($folder),)?
            $("\u{1f}", $field,)*
            $("\u{1f}", $inner, $("\u{1f}", $further,)*)?
            "\u{1e}"
        ),*)
    };
    ($(Row {
        script: $script:literal,
        printed: $printed:literal,
        code: $code:literal,
        name: $name:literal,
        text: $text:literal $(,)?
    }),* $(,)?) => {
        table![$(($script, $printed, $code, $name, $text)),*]
    };
}

pub(crate) use table;

/// The text of a list of files: rows of a folder, a name, and the text that is under it, which is a literal, or a constant that
/// `text_named` knows.
macro_rules! files {
    ($((
        Folder::$folder:ident,
        $name:literal,
        $($text:literal)?
        $($named:ident)?
        $(,)?
    )),* $(,)?) => {
        concat!($(
            stringify!($folder),
            "\u{1f}",
            $name,
            "\u{1f}",
            $($text,)?
            $("\u{1d}", stringify!($named),)?
            "\u{1e}"
        ),*)
    };
}

pub(crate) use files;

/// What ends a row of a table.
pub const ROW_END: char = '\u{1e}';

/// What is between the fields of a row.
const FIELD_END: char = '\u{1f}';

/// What comes before the name of a constant.
const CONSTANT: char = '\u{1d}';

/// The first field of a row, and those after it.
pub fn first_field(row: &str) -> (&str, &str) {
    row.split_once(FIELD_END).unwrap_or((row, ""))
}

/// A status and a number, which are the fields of a row that are left, or none where they are no such numbers.
pub fn numbers_of(fields: &str) -> Option<(u8, usize)> {
    let (code, number) = first_field(fields);
    Some((code.parse().ok()?, number.parse().ok()?))
}

/// The name of a constant, if a field is one in place of a text.
pub fn constant_in(field: &str) -> Option<&str> {
    match field.split_once(CONSTANT) {
        Some((_, name)) => Some(name),
        None => None,
    }
}

/// The folder of this name in the code, if there is one.
pub fn folder_of(name: &str) -> Option<Folder> {
    match name {
        "Automata" => Some(Folder::Automata),
        "Words" => Some(Folder::Words),
        "Bases" => Some(Folder::Bases),
        "Macros" => Some(Folder::Macros),
        "Morphisms" => Some(Folder::Morphisms),
        "Transducers" => Some(Folder::Transducers),
        "Results" => Some(Folder::Results),
        "Commands" => Some(Folder::Commands),
        _ => None,
    }
}
