ghost use Rattle.std.specs.Prelude.{◌≡◌, ◌++◌, codes, decimal};
ghost use Rattle.std.specs.Fmt.{signed_decimal};
ghost use Rattle.wal_outside.specs.Folders.{folder_text};
ghost use Rattle.wal_outside.specs.Sending.{Sends};
ghost use Rattle.command_parts.specs.Lines.{grammar_name as grammar_text, flaw_text, refusal_name, refusal_letter, law_name as law_text, names_text, text_detail, file_detail, system_detail, step_detail, shape_detail, word_detail, refusal_detail, detail, fault_line};

use crate::fault::Fault;
use crate::file_refusal::FileRefusal;
use crate::refusal::Refusal;
use crate::shape_refusal::ShapeRefusal;
use crate::step_refusal::StepRefusal;
use crate::system_refusal::SystemRefusal;
use crate::text_refusal::{Grammar, TextRefusal};
use crate::word_refusal::WordRefusal;
use crate::word_systems::WordSystems;
use adder_check::admit_fault::Law;
use dfa_loading::FileFlaw;
use digit_tuple::name::Name;
use itoa::Buffer;
use morph_words::MorphismKind;
use wal_outside::{Folder, Sink, WriteFault, send, send_four, send_two};

impl Grammar {
    /// The part's name in a line.
    pub fn name(self) -> &'static str
        ensures { result.now ≡ grammar_text self }
    {
        match self {
            Grammar::Command => "command",
            Grammar::Regex => "regex",
            Grammar::Macro => "macro",
            Grammar::Formula => "formula",
            Grammar::Rules => "rules",
        }
    }
}

/// The name of a law in a line.
fn law_name(law: Law) -> &'static str
    ensures { result.now ≡ law_text law }
{
    match law {
        Law::NoZero => "NoZero",
        Law::Endless => "Finite",
        Law::ZeroLaw => "ZeroLaw",
        Law::SuccessorLaw => "SuccessorLaw",
    }
}

/// Hands over the line of a command that begins on `line` and is refused by `fault`. It takes no memory.
///
/// # Errors
/// As `send`: what was appended is a prefix of the line.
pub fn send_fault<K: Sink>(out: &mut K, line: u64, fault: &Fault) -> Result<(), WriteFault>
    ensures { Sends (K.view out.old) (fault_line line fault.now) result (K.view out.new) }
{
    let mut buffer = Buffer::new();
    send_two(out, b"error ", buffer.format(line).as_bytes())?;
    send_detail(out, fault)?;
    send(out, b"\n")
}

/// Hands over the number, name and kept values of a fault.
fn send_detail<K: Sink>(out: &mut K, fault: &Fault) -> Result<(), WriteFault>
    ensures { Sends (K.view out.old) (detail fault.now) result (K.view out.new) }
{
    match fault {
        Fault::Refused(refusal) => send_refusal(out, refusal),
        Fault::Store(folder, name) => send_file(out, b": F26 Store ", *folder, name),
        Fault::Memory => send(out, b": F27 Memory"),
    }
}

/// Hands over the number, name and kept values of a cause for which a command is refused.
fn send_refusal<K: Sink>(out: &mut K, refusal: &Refusal) -> Result<(), WriteFault>
    ensures { Sends (K.view out.old) (refusal_detail refusal.now) result (K.view out.new) }
{
    match refusal {
        Refusal::Text(refusal) => send_text_refusal(out, refusal),
        Refusal::File(refusal) => send_file_refusal(out, refusal),
        Refusal::System(refusal) => send_system_refusal(out, refusal),
        Refusal::Step(refusal) => send_step_refusal(out, refusal),
        Refusal::Shape(refusal) => send_shape_refusal(out, refusal),
        Refusal::Word(refusal) => send_word_refusal(out, refusal),
    }
}

/// Hands over the refusal of a text.
fn send_text_refusal<K: Sink>(out: &mut K, refusal: &TextRefusal) -> Result<(), WriteFault>
    ensures { Sends (K.view out.old) (text_detail refusal.now) result (K.view out.new) }
{
    match refusal {
        TextRefusal::Command => send(out, b": F01 Command"),
        TextRefusal::Syntax(grammar, at) => send_place(out, b": F02 Syntax in ", *grammar, *at),
        TextRefusal::MixedChain(at) => send_number(out, b": F03 MixedChain at ", *at as u64),
        TextRefusal::Number(grammar, at) => send_place(out, b": F04 Number in ", *grammar, *at),
        TextRefusal::NotLinear(at) => send_number(out, b": F05 NotLinear at ", *at as u64),
        TextRefusal::Depth(grammar, at) => send_place(out, b": F06 Depth in ", *grammar, *at),
        TextRefusal::Long(bytes) => send_number(out, b": F07 Long ", *bytes as u64),
        TextRefusal::MacroArgs(name, place, given) => send_arguments(out, name, *place, *given),
        TextRefusal::MacroDepth(name) => send_two(out, b": F09 MacroDepth ", name.as_bytes()),
        TextRefusal::MacroLong => send(out, b": F10 MacroLong 65536"),
    }
}

/// Hands over the refusal of a file or a script.
fn send_file_refusal<K: Sink>(out: &mut K, refusal: &FileRefusal) -> Result<(), WriteFault>
    ensures { Sends (K.view out.old) (file_detail refusal.now) result (K.view out.new) }
{
    match refusal {
        FileRefusal::Unknown(folder, name) => send_file(out, b": F11 Unknown ", *folder, name),
        FileRefusal::File(folder, name, flaw) => send_flawed(out, *folder, name, *flaw),
        FileRefusal::LoadDepth(name) => send_two(out, b": F25 LoadDepth ", name.as_bytes()),
        FileRefusal::ScriptLimit => send(out, b": F28 ScriptLimit"),
    }
}

/// Hands over the refusal of systems.
fn send_system_refusal<K: Sink>(out: &mut K, refusal: &SystemRefusal) -> Result<(), WriteFault>
    ensures { Sends (K.view out.old) (system_detail refusal.now) result (K.view out.new) }
{
    match refusal {
        SystemRefusal::SystemUnknown(name) => send_two(
            out,
            b": F14 SystemUnknown ",
            name.as_bytes(),
        ),
        SystemRefusal::NotAdmitted(name, law) => send_law(out, name, *law),
        SystemRefusal::Clash(name, first, other) => send_clash(out, name, first, other),
        SystemRefusal::Direction(first, other) => send_four(
            out,
            b": F17 Direction ",
            first.as_bytes(),
            b" ",
            other.as_bytes(),
        ),
    }
}

/// Hands over the refusal of a step.
fn send_step_refusal<K: Sink>(out: &mut K, refusal: &StepRefusal) -> Result<(), WriteFault>
    ensures { Sends (K.view out.old) (step_detail refusal.now) result (K.view out.new) }
{
    match refusal {
        StepRefusal::Letters(step) => send_number(out, b": F18 Letters step ", *step),
        StepRefusal::States(step) => send_number(out, b": F19 States step ", *step),
    }
}

/// Hands over the refusal of a named automaton or word.
fn send_shape_refusal<K: Sink>(out: &mut K, refusal: &ShapeRefusal) -> Result<(), WriteFault>
    ensures { Sends (K.view out.old) (shape_detail refusal.now) result (K.view out.new) }
{
    match refusal {
        ShapeRefusal::Arity(name, tracks, given) => send_arity(out, name, *tracks, *given),
        ShapeRefusal::Plain(name) => send_two(out, b": F21 Plain ", name.as_bytes()),
        ShapeRefusal::CombineShape(first, other) => send_four(
            out,
            b": F24 CombineShape ",
            first.as_bytes(),
            b" ",
            other.as_bytes(),
        ),
        ShapeRefusal::NotPlain(name) => send_two(out, b": F29 NotPlain ", name.as_bytes()),
        ShapeRefusal::LangShape(first, other) => send_four(
            out,
            b": F30 LangShape ",
            first.as_bytes(),
            b" ",
            other.as_bytes(),
        ),
        ShapeRefusal::Place(name) => send_two(out, b": F32 Place ", name.as_bytes()),
        ShapeRefusal::BaseNeeded(name, systems) => send_base(out, name, systems),
        ShapeRefusal::NotRelated(first, other) => send_four(
            out,
            b": F34 NotRelated ",
            first.as_bytes(),
            b" ",
            other.as_bytes(),
        ),
    }
}

/// Hands over the refusal of letters or words.
fn send_word_refusal<K: Sink>(out: &mut K, refusal: &WordRefusal) -> Result<(), WriteFault>
    ensures { Sends (K.view out.old) (word_detail refusal.now) result (K.view out.new) }
{
    match refusal {
        WordRefusal::Morphism(kind) => send_kind(out, *kind),
        WordRefusal::LetterMissing(letter) => send_signed(out, b": F23 LetterMissing ", *letter),
        WordRefusal::TestLong => send(out, b": F31 TestLong 16777216"),
    }
}

/// Hands over a fault's number and name, its part, and the byte in that.
fn send_place<K: Sink>(
    out: &mut K,
    name: &[u8],
    grammar: Grammar,
    at: usize,
) -> Result<(), WriteFault>
    ensures { Sends (K.view out.old) ((name.now ++ grammar_text grammar) ++ (codes " at " ++ decimal at)) result (K.view out.new) }
{
    let mut buffer = Buffer::new();
    send_four(
        out,
        name,
        grammar.name().as_bytes(),
        b" at ",
        buffer.format(at).as_bytes(),
    )
}

/// Hands over a fault's number and name, and the number after it.
fn send_number<K: Sink>(out: &mut K, name: &[u8], number: u64) -> Result<(), WriteFault>
    ensures { Sends (K.view out.old) (name.now ++ decimal number) result (K.view out.new) }
{
    let mut buffer = Buffer::new();
    send_two(out, name, buffer.format(number).as_bytes())
}

/// Hands over a fault's number and name, and the signed number after it.
fn send_signed<K: Sink>(out: &mut K, name: &[u8], number: i32) -> Result<(), WriteFault>
    ensures { Sends (K.view out.old) (name.now ++ signed_decimal number) result (K.view out.new) }
{
    let mut buffer = Buffer::new();
    send_two(out, name, buffer.format(number).as_bytes())
}

/// Hands over the fault of a macro's text with a place of this number, where a call has so many arguments.
fn send_arguments<K: Sink>(
    out: &mut K,
    name: &Name,
    place: u64,
    given: usize,
) -> Result<(), WriteFault>
    ensures { Sends (K.view out.old) (((codes ": F08 MacroArgs " ++ name.now) ++ (codes " " ++ decimal place)) ++ (codes " " ++ decimal given)) result (K.view out.new) }
{
    let mut buffer = Buffer::new();
    send_four(
        out,
        b": F08 MacroArgs ",
        name.as_bytes(),
        b" ",
        buffer.format(place).as_bytes(),
    )?;
    let mut buffer = Buffer::new();
    send_two(out, b" ", buffer.format(given).as_bytes())
}

/// Why no word is made of a morphism, in a line.
fn kind_name(kind: MorphismKind) -> &'static str
    ensures { result.now ≡ refusal_name kind }
{
    match kind {
        MorphismKind::NotUniform(_) => "NotUniform",
        MorphismKind::Length(_) => "Length",
        MorphismKind::NotClosed(_) => "NotClosed",
        MorphismKind::NotFixed(_) => "NotFixed",
    }
}

/// The letter that determines it.
fn kind_letter(kind: MorphismKind) -> i32
    ensures { result ≡ refusal_letter kind }
{
    match kind {
        MorphismKind::NotUniform(letter)
        | MorphismKind::Length(letter)
        | MorphismKind::NotClosed(letter)
        | MorphismKind::NotFixed(letter) => letter,
    }
}

/// Hands over the fault of a morphism of which no word is made.
fn send_kind<K: Sink>(out: &mut K, kind: MorphismKind) -> Result<(), WriteFault>
    ensures { Sends (K.view out.old) ((codes ": F22 Morphism " ++ refusal_name kind) ++ (codes " " ++ signed_decimal (refusal_letter kind))) result (K.view out.new) }
{
    let letter = kind_letter(kind);
    let mut buffer = Buffer::new();
    send_four(
        out,
        b": F22 Morphism ",
        kind_name(kind).as_bytes(),
        b" ",
        buffer.format(letter).as_bytes(),
    )
}

/// Hands over a fault's number and name, and the file that it is about.
fn send_file<K: Sink>(
    out: &mut K,
    fault: &[u8],
    folder: Folder,
    name: &Name,
) -> Result<(), WriteFault>
    ensures { Sends (K.view out.old) ((fault.now ++ folder_text folder) ++ (codes "/" ++ name.now)) result (K.view out.new) }
{
    send_four(out, fault, folder.name().as_bytes(), b"/", name.as_bytes())
}

/// Hands over the fault of a file, and what is wrong with it.
fn send_flawed<K: Sink>(
    out: &mut K,
    folder: Folder,
    name: &Name,
    flaw: FileFlaw,
) -> Result<(), WriteFault>
    ensures { Sends (K.view out.old) (((codes ": F12 File " ++ folder_text folder) ++ (codes "/" ++ name.now)) ++ flaw_text flaw) result (K.view out.new) }
{
    send_file(out, b": F12 File ", folder, name)?;
    send_flaw(out, flaw)
}

/// Hands over what is wrong with a file.
fn send_flaw<K: Sink>(out: &mut K, flaw: FileFlaw) -> Result<(), WriteFault>
    ensures { Sends (K.view out.old) (flaw_text flaw) result (K.view out.new) }
{
    match flaw {
        FileFlaw::Line(line) => send_number(out, b" line ", line),
        FileFlaw::TooLong => send(out, b" too long"),
    }
}

/// Hands over the fault of a name that has so many tracks and is given so many terms.
fn send_arity<K: Sink>(out: &mut K, name: &Name, tracks: u32, given: u32) -> Result<(), WriteFault>
    ensures { Sends (K.view out.old) (((codes ": F13 Arity " ++ name.now) ++ (codes " " ++ decimal tracks)) ++ (codes " " ++ decimal given)) result (K.view out.new) }
{
    let mut buffer = Buffer::new();
    send_four(
        out,
        b": F13 Arity ",
        name.as_bytes(),
        b" ",
        buffer.format(tracks).as_bytes(),
    )?;
    let mut buffer = Buffer::new();
    send_two(out, b" ", buffer.format(given).as_bytes())
}

/// Hands over the fault of a system of which a law does not hold.
fn send_law<K: Sink>(out: &mut K, name: &Name, law: Law) -> Result<(), WriteFault>
    ensures { Sends (K.view out.old) ((codes ": F15 NotAdmitted " ++ name.now) ++ (codes " " ++ law_text law)) result (K.view out.new) }
{
    send_four(
        out,
        b": F15 NotAdmitted ",
        name.as_bytes(),
        b" ",
        law_name(law).as_bytes(),
    )
}

/// Hands over the fault of a variable over two systems.
fn send_clash<K: Sink>(
    out: &mut K,
    name: &Name,
    first: &Name,
    other: &Name,
) -> Result<(), WriteFault>
    ensures { Sends (K.view out.old) (((codes ": F16 Clash " ++ name.now) ++ (codes " " ++ first.now)) ++ (codes " " ++ other.now)) result (K.view out.new) }
{
    send_four(
        out,
        b": F16 Clash ",
        name.as_bytes(),
        b" ",
        first.as_bytes(),
    )?;
    send_two(out, b" ", other.as_bytes())
}

/// Hands over the fault of a word over systems that are no base.
fn send_base<K: Sink>(out: &mut K, name: &Name, systems: &WordSystems) -> Result<(), WriteFault>
    ensures { Sends (K.view out.old) ((codes ": F33 BaseNeeded " ++ name.now) ++ names_text systems.now) result (K.view out.new) }
{
    send_two(out, b": F33 BaseNeeded ", name.as_bytes())?;
    send_names(out, systems.as_slice())
}

/// Hands over names, a blank before each.
fn send_names<K: Sink>(out: &mut K, names: &[Name]) -> Result<(), WriteFault>
    ensures { Sends (K.view out.old) (names_text names.now) result (K.view out.new) }
{
    for name in names {
        send_two(out, b" ", name.as_bytes())?;
    }
    Ok(())
}
