//! Which places may come right after which.

ghost use Rattle.std.specs.Prelude.{◌≡◌, ℕ, ◌<◌, ◌&&◌, length, Contains, IfOk, OnOk};
ghost use Rattle.regex_build.specs.Fragments.{rows_in, Crosses, AreLinked, AreSettled, IsFollow, HasRows};

use crate::fragment::{Crossing, Fragment, merged, merged_if};
use digit_tuple::faults::OutOfMemory;
use std::alloc::Global;

// Lists each of the first places after each of the last ones.
fn link(next: &mut Vec<Vec<u32>>, lasts: &[u32], firsts: &[u32]) -> Result<(), OutOfMemory>
    requires { (p q : ℕ) → Contains lasts.now p → Contains firsts.now q → p < length next.old.items }
    ensures { OnOk result (AreLinked (λ p q. Contains lasts.now p × Contains firsts.now q) (rows_in next.old.items) (rows_in next.new.items)) }
{
    if firsts.is_empty() {
        return Ok(());
    }
    for last in lasts {
        let row = &mut next[*last as usize];
        row.extend_from_slice(firsts)?;
    }
    Ok(())
}

/// Lists the pairs of the crossings.
pub fn pay(next: &mut Vec<Vec<u32>>, owed: &[Crossing]) -> Result<(), OutOfMemory>
    requires { (p q : ℕ) → Crosses owed.now p q → p < length next.old.items }
    ensures { OnOk result (AreLinked (Crosses owed.now) (rows_in next.old.items) (rows_in next.new.items)) }
{
    for crossing in owed {
        link(next, &crossing.lasts, &crossing.firsts)?;
    }
    Ok(())
}

// The crossings, if they may be owed; otherwise their pairs are listed, and none is left.
fn settled(
    alloc: Global,
    next: &mut Vec<Vec<u32>>,
    owed: Vec<Crossing>,
    may_owe: bool,
) -> Result<Vec<Crossing>, OutOfMemory>
    requires { (p q : ℕ) → Crosses owed.items p q → p < length next.old.items }
    ensures { IfOk result (λ left. AreSettled (Crosses owed.items) may_owe left.items (rows_in next.old.items) (rows_in next.new.items)) }
{
    if may_owe {
        return Ok(owed);
    }
    pay(next, &owed)?;
    Ok(Vec::new(alloc))
}

// The crossing of these places, if it may be owed; otherwise its pairs are listed.
fn crossed(
    alloc: Global,
    next: &mut Vec<Vec<u32>>,
    lasts: &[u32],
    firsts: &[u32],
    may_owe: bool,
) -> Result<Vec<Crossing>, OutOfMemory>
    requires { (p : ℕ) → Contains lasts.now p → p < length next.old.items }
    ensures { IfOk result (λ left. AreSettled (λ p q. Contains lasts.now p × Contains firsts.now q) may_owe left.items (rows_in next.old.items) (rows_in next.new.items)) }
{
    let mut owed = Vec::new(alloc);
    if may_owe {
        owed.push(Crossing {
            lasts: Vec::from_slice(alloc, lasts)?,
            firsts: Vec::from_slice(alloc, firsts)?,
        })?;
    } else {
        link(next, lasts, firsts)?;
    }
    Ok(owed)
}

/// Two expressions, one after the other. What leads from a last place to a first one of both together may be owed, and
/// all else is listed.
pub fn follow(
    alloc: Global,
    next: &mut Vec<Vec<u32>>,
    left: Fragment,
    right: Fragment,
) -> Result<Fragment, OutOfMemory>
    requires left { HasRows (length next.old.items) left }
    requires right { HasRows (length next.old.items) right }
    ensures { IfOk result (λ made. IsFollow left right made (rows_in next.old.items) (rows_in next.new.items)) }
{
    let nullable = left.nullable && right.nullable;
    let between = crossed(alloc, next, &left.lasts, &right.firsts, nullable)?;
    let before = settled(alloc, next, left.owed, right.nullable)?;
    let after_token = settled(alloc, next, right.owed, left.nullable)?;
    Ok(Fragment {
        nullable,
        repeats: false,
        firsts: merged_if(left.nullable, left.firsts, right.firsts)?,
        lasts: merged_if(right.nullable, right.lasts, left.lasts)?,
        owed: merged(between, merged(before, after_token)?)?,
    })
}
