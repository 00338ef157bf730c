//! The words of commands that a run answers itself.
ghost use Rattle.std.specs.Prelude.{◌≡◌, ◌≢◌, MatchOption};
ghost use Rattle.command_head.specs.Parts.{first_word_of};
ghost use Rattle.session_cli.specs.RunOutcomes.{run_word_text};

use command_head::first_word;

/// A command that makes nothing, by its first word.
#[derive(Clone, Copy)]
pub(crate) enum RunWord {
    /// `load`: the commands of a file come next.
    Load,
    /// `exit`: the run ends.
    Exit,
    /// `quit`: the run ends.
    Quit,
}

/// The command whose word comes first in a text. None where it is another one.
pub(crate) fn run_word(text: &[u8]) -> Option<RunWord>
    ensures { MatchOption result ((word : RunWord) → first_word_of text.now ≢ run_word_text word) (λ word. first_word_of text.now ≡ run_word_text word) }
{
    match first_word(text) {
        b"load" => Some(RunWord::Load),
        b"exit" => Some(RunWord::Exit),
        b"quit" => Some(RunWord::Quit),
        _ => None,
    }
}
