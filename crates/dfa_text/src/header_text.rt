//! The line of a header.

ghost use Rattle.std.specs.Prelude.{◌≡◌, ◌++◌, codes, OnOk};
ghost use Rattle.dfa_text.specs.Parts.{set_text, header_text};
ghost use Rattle.dfa_text.specs.RelationText.{names_text, header_line};

use crate::numbers::push_integers;
use digit_tuple::faults::OutOfMemory;
use digit_tuple::header::Header;
use digit_tuple::letter_set::LetterSet;
use digit_tuple::name::Name;
use digit_tuple::systems::SystemTrack;

/// Appends the systems or sets of the tracks, with a blank between two of them, and the line's end.
pub fn push_header(out: &mut Vec<u8>, header: &Header) -> Result<(), OutOfMemory>
    ensures { OnOk result (out.new.items ≡ out.old.items ++ (header_line header.now ++ codes "\n")) }
{
    push_tracks(out, header)?;
    out.push(b'\n')?;
    Ok(())
}

fn push_tracks(out: &mut Vec<u8>, header: &Header) -> Result<(), OutOfMemory>
    ensures { OnOk result (out.new.items ≡ out.old.items ++ header_line header.now) }
{
    match header {
        Header::Sets(sets) => push_sets(out, sets.as_slice()),
        Header::Systems(systems) => push_names(out, systems.as_slice()),
    }
}

/// Appends sets in braces, with a blank between two of them.
pub fn push_sets(out: &mut Vec<u8>, sets: &[LetterSet]) -> Result<(), OutOfMemory>
    ensures { OnOk result (out.new.items ≡ out.old.items ++ header_text sets.now) }
{
    if let [first, others @ ..] = sets {
        push_set(out, first)?;
        for set in others {
            push_next_set(out, set)?;
        }
    }
    Ok(())
}

fn push_next_set(out: &mut Vec<u8>, set: &LetterSet) -> Result<(), OutOfMemory>
    ensures { OnOk result (out.new.items ≡ out.old.items ++ (codes " " ++ set_text set.now)) }
{
    out.push(b' ')?;
    push_set(out, set)
}

fn push_set(out: &mut Vec<u8>, set: &LetterSet) -> Result<(), OutOfMemory>
    ensures { OnOk result (out.new.items ≡ out.old.items ++ set_text set.now) }
{
    out.push(b'{')?;
    push_integers(out, set.members())?;
    out.push(b'}')?;
    Ok(())
}

// The systems' names, with a blank between two of them.
fn push_names(out: &mut Vec<u8>, systems: &[SystemTrack]) -> Result<(), OutOfMemory>
    ensures { OnOk result (out.new.items ≡ out.old.items ++ names_text systems.now) }
{
    if let [first, others @ ..] = systems {
        out.extend_from_slice(first.name.as_bytes())?;
        for system in others {
            push_next_name(out, &system.name)?;
        }
    }
    Ok(())
}

fn push_next_name(out: &mut Vec<u8>, name: &Name) -> Result<(), OutOfMemory>
    ensures { OnOk result (out.new.items ≡ out.old.items ++ (codes " " ++ name.now)) }
{
    out.push(b' ')?;
    out.extend_from_slice(name.as_bytes())?;
    Ok(())
}
