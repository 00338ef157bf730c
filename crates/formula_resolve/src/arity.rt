//! Whether the names that a formula mentions have the tracks that it gives them.

ghost use Rattle.std.specs.Prelude.{◌≡◌};
ghost use Rattle.formula_resolve.specs.Arity.{first_misuse, misuse, miscount, kept_count};
ghost use Rattle.formula_resolve.specs.Answers.{Reports};

use crate::fault::ResolveFault;
use crate::headers::Headers;
use crate::mention::Mention;
use digit_tuple::name::Name;
use std::alloc::Global;

/// Ok where each automaton that is called is over systems, and each name has as many tracks as are
/// given; else the first misuse from the left.
pub(crate) fn check_uses(
    alloc: Global,
    mentions: &[Mention],
    headers: &Headers,
) -> Result<(), ResolveFault>
    ensures { Reports (first_misuse headers.now mentions.now) result }
{
    for mention in mentions {
        check_use(alloc, mention, headers)?;
    }
    Ok(())
}

fn check_use(alloc: Global, mention: &Mention, headers: &Headers) -> Result<(), ResolveFault>
    ensures { Reports (misuse headers.now mention.now) result }
{
    match mention {
        Mention::Marked(_) => Ok(()),
        Mention::Called(name, given) => {
            if headers.is_plain(name) {
                return Err(ResolveFault::Plain(name.copy(alloc)?));
            }
            check_count(alloc, name, headers.automaton_tracks(name).len(), *given)
        }
        Mention::Indexed(name, given) => {
            check_count(alloc, name, headers.word_tracks(name).len(), *given)
        }
    }
}

fn check_count(alloc: Global, name: &Name, tracks: usize, given: usize) -> Result<(), ResolveFault>
    ensures { Reports (miscount name.now tracks given) result }
{
    if tracks == given {
        return Ok(());
    }
    Err(ResolveFault::Arity(name.copy(alloc)?, kept(tracks), kept(given)))
}

/// A count as a fault keeps it.
fn kept(count: usize) -> u32
    ensures { result ≡ kept_count count }
{
    if count < 4_294_967_295 {
        count as u32
    } else {
        u32::MAX
    }
}
