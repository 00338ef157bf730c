//! The commands by their words, and what is to be done for each, from its text.
ghost use Rattle.std.specs.Prelude.{◌≡◌, ◌≢◌, MatchOption, codes};
ghost use Rattle.wal_outside.specs.declared.folder.Folder.TheVariants.{Automata, Results};
ghost use Rattle.command_head.specs.Parts.{first_word_of};
ghost use Rattle.definitions.specs.Texts.{Stores};
ghost use Rattle.definitions.specs.Trees.{Ledger, custom_of};
ghost use Rattle.session_cli.specs.Outcomes.{checks_of, word_text};
ghost use Rattle.command_parts.specs.FileChanges.{Acts};
ghost use Rattle.command_parts.specs.StoreReads.{FromFiles};

use crate::texts::{macro_change, morphism_change};
use command_head::first_word;
use command_parts::fault::Fault;
use command_parts::file_change::{Action, printing, writing};
use command_parts::kept::Kept;
use command_parts::refusal::Refusal;
use command_parts::step_options::StepOptions;
use command_parts::text_refusal::TextRefusal;
use formula_commands::formula::{FormulaCommand, formula_change};
use language_commands::language::{LanguageCommand, language_change};
use language_commands::reg::reg_change;
use language_steps::{LanguageOp, OneOp, PairOp};
use listing_commands::listing::{say_inf, say_test};
use std::alloc::Global;
use wal_outside::{Folder, Store};
use word_commands::combine::combine_change;
use word_commands::convert::convert_change;
use word_commands::image::image_change;
use word_commands::promote::promote_change;
use word_commands::transduce::transduce_change;

/// The most bytes that a command may have.
pub(crate) const COMMAND_LIMIT: usize = 65_536;

/// A command, by its first word.
#[derive(Clone, Copy)]
pub(crate) enum CommandWord {
    /// `reg`: an expression over tracks, kept as an automaton.
    Reg,
    /// `eval`: a formula, kept as what it says.
    Eval,
    /// `def`: a formula, kept as an automaton that later commands may name.
    Def,
    /// `macro`: a text, kept for formulas that call it.
    Macro,
    /// `morphism`: rules, kept as they are printed.
    Morphism,
    /// `promote`: the fixed point of a morphism, kept as a word.
    Promote,
    /// `combine`: the word that listed automata make together.
    Combine,
    /// `image`: a word whose letters are mapped by a morphism.
    Image,
    /// `union`, `intersect`, `concat`, `star` or `reverse`: what an operation makes of languages, kept as an automaton.
    Language(LanguageOp),
    /// `transduce`: the outputs of a transducer that runs over a word, kept as a word.
    Transduce,
    /// `test`: words that an automaton lists, printed.
    Test,
    /// `inf`: whether there are infinitely many.
    Inf,
    /// `convert`: a word over a base, kept as a word over another base.
    Convert,
}

/// The command whose word comes first in a text. None where it is none that a command has.
pub(crate) fn command_word(text: &[u8]) -> Option<CommandWord>
    ensures { MatchOption result ((word : CommandWord) → first_word_of text.now ≢ word_text word) (λ word. first_word_of text.now ≡ word_text word) }
{
    match first_word(text) {
        b"reg" => Some(CommandWord::Reg),
        b"eval" => Some(CommandWord::Eval),
        b"def" => Some(CommandWord::Def),
        b"macro" => Some(CommandWord::Macro),
        b"morphism" => Some(CommandWord::Morphism),
        b"promote" => Some(CommandWord::Promote),
        b"combine" => Some(CommandWord::Combine),
        b"image" => Some(CommandWord::Image),
        b"union" => Some(CommandWord::Language(LanguageOp::Pair(PairOp::Union))),
        b"intersect" => Some(CommandWord::Language(LanguageOp::Pair(PairOp::Intersection))),
        b"concat" => Some(CommandWord::Language(LanguageOp::Pair(PairOp::Concatenation))),
        b"star" => Some(CommandWord::Language(LanguageOp::One(OneOp::Star))),
        b"reverse" => Some(CommandWord::Language(LanguageOp::One(OneOp::Reversal))),
        b"transduce" => Some(CommandWord::Transduce),
        b"test" => Some(CommandWord::Test),
        b"inf" => Some(CommandWord::Inf),
        b"convert" => Some(CommandWord::Convert),
        _ => None,
    }
}

/// `eval` keeps what a formula says among the results.
fn eval(options: StepOptions) -> FormulaCommand<'static>
    ensures word { result.word.now ≡ codes "eval" }
    ensures folder { result.folder ≡ Results }
    ensures options { result.options ≡ options }
{
    FormulaCommand {
        word: b"eval",
        folder: Folder::Results,
        options,
    }
}

/// `def` keeps it where later commands find it.
fn def(options: StepOptions) -> FormulaCommand<'static>
    ensures word { result.word.now ≡ codes "def" }
    ensures folder { result.folder ≡ Automata }
    ensures options { result.options ≡ options }
{
    FormulaCommand {
        word: b"def",
        folder: Folder::Automata,
        options,
    }
}

/// What is to be done for a command, or why it is refused: by its length, by its first word, or by the checks of the command of
/// that word. Files that it names are read from the store. Built-in systems that formulas name are sealed once and kept.
pub(crate) fn action_of<T: Store>(
    alloc: Global,
    options: StepOptions,
    text: &[u8],
    kept: &mut Kept,
    store: &mut T,
) -> Result<Action, Fault>
    ensures { FromFiles (λ found action. (ledger : Ledger) → Stores ledger found → Acts (custom_of ledger) (checks_of options.limit ledger text.now) options.shown action) (T.view store.old) result (T.view store.new) }
{
    if text.len() > COMMAND_LIMIT {
        return Err(Fault::Refused(Refusal::Text(TextRefusal::Long(COMMAND_LIMIT))));
    }
    match command_word(text) {
        Some(CommandWord::Reg) => writing(reg_change(alloc, options, text, kept, store)),
        Some(CommandWord::Eval) => {
            writing(formula_change(alloc, eval(options), text, kept, store))
        }
        Some(CommandWord::Def) => writing(formula_change(alloc, def(options), text, kept, store)),
        Some(CommandWord::Macro) => writing(macro_change(alloc, text)),
        Some(CommandWord::Morphism) => writing(morphism_change(alloc, text)),
        Some(CommandWord::Promote) => writing(promote_change(alloc, options, text, kept, store)),
        Some(CommandWord::Combine) => { writing(combine_change(alloc, options, text, kept, store)) }
        Some(CommandWord::Image) => writing(image_change(alloc, options, text, kept, store)),
        Some(CommandWord::Language(op)) => {
            let command = LanguageCommand { op, text };
            writing(language_change(alloc, options, command, kept, store))
        }
        Some(CommandWord::Transduce) => {
            writing(transduce_change(alloc, options, text, kept, store))
        }
        Some(CommandWord::Test) => printing(say_test(alloc, options, text, kept, store)),
        Some(CommandWord::Inf) => printing(say_inf(alloc, options, text, kept, store)),
        Some(CommandWord::Convert) => { writing(convert_change(alloc, options, text, kept, store)) }
        None => Err(Fault::Refused(Refusal::Text(TextRefusal::Command))),
    }
}
