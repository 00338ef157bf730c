//! Texts that grow up to the limit of expansions.

ghost use Rattle.std.specs.Prelude.{◌≡◌, ◌≤◌, ◌++◌, length, OnOk};
ghost use Rattle.macro_expand.specs.Expansion.{limited};
ghost use Rattle.macro_expand.specs.Views.{Answers};

use crate::fault::MacroFault;

/// How many bytes a text that an expansion makes may have.
const MOST_BYTES: usize = 65_536;

/// Puts bytes after a text, unless that would be too long.
pub(crate) fn put(text: &mut Vec<u8>, bytes: &[u8]) -> Result<(), MacroFault>
    requires { length text.old.items ≤ MOST_BYTES }
    ensures made { Answers (λ done. text.new.items) result (limited (text.old.items ++ bytes.now)) }
    ensures text { OnOk result (text.new.items ≡ text.old.items ++ bytes.now) }
    ensures short { OnOk result (length text.new.items ≤ MOST_BYTES) }
{
    if bytes.len() > MOST_BYTES - text.len() {
        return Err(MacroFault::MacroLong);
    }
    text.extend_from_slice(bytes)?;
    Ok(())
}
