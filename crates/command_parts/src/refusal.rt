//! The causes of its own for which a command is refused, by families.

use crate::file_refusal::FileRefusal;
use crate::shape_refusal::ShapeRefusal;
use crate::step_refusal::StepRefusal;
use crate::system_refusal::SystemRefusal;
use crate::text_refusal::TextRefusal;
use crate::word_refusal::WordRefusal;

/// Why a command is refused by one of its checks.
#[derive(Drop)]
pub enum Refusal {
    /// Its text.
    Text(TextRefusal),
    /// A file that it names, or the script.
    File(FileRefusal),
    /// Its systems.
    System(SystemRefusal),
    /// A step that passes a limit.
    Step(StepRefusal),
    /// The automata and words that it names.
    Shape(ShapeRefusal),
    /// The letters or words that it asks for.
    Word(WordRefusal),
}
