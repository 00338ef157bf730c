//! Tables as texts. The proof of a function goes over each text of a static table with all the bytes before it, and over one
//! text once. So a large table is one text, which is cut where its rows and their fields end.

/// The text of a table, whose rows are lists of literals.
macro_rules! table {
    ($(($first:literal $(, $field:literal)* $(,)?)),* $(,)?) => {
        concat!($($first $(, "\u{1f}", $field)*, "\u{1e}"),*)
    };
}

pub(crate) use table;

/// What ends a row of a table.
pub const ROW_END: char = '\u{1e}';

/// What stands between the fields of a row.
pub const FIELD_END: char = '\u{1f}';

/// The first field of a row, and those after it.
pub fn fields_of(row: &str) -> (&str, &str) {
    row.split_once(FIELD_END).unwrap_or((row, ""))
}

/// The last field of a row, after those before it.
pub fn last_field_of(row: &str) -> (&str, &str) {
    row.rsplit_once(FIELD_END).unwrap_or((row, ""))
}
