//! A state of each class.

ghost use Rattle.std.specs.Prelude.{◌<◌, ◌≤◌, ◌^◌, ◌↔◌, length, IfOk, IsTrue};
ghost use Rattle.std.specs.List.{All};
ghost use Rattle.residual_classes.specs.Leaders.{AreLeaders, AreAlone};

use digit_tuple::faults::OutOfMemory;
use std::alloc::Global;

/// The last of the first `count` states that has a class, at the class. The numbers of classes that
/// none of them has mean nothing.
pub fn leaders(alloc: Global, classes: &[u32], count: usize) -> Result<Vec<u32>, OutOfMemory>
    requires count { count ≤ length classes.now }
    requires small { length classes.now ≤ 2 ^ 32 }
    requires below { All (λ class. class < length classes.now) classes.now }
    ensures { IfOk result (λ leaders. AreLeaders classes.now leaders.items count) }
{
    let mut leaders = vec![in alloc; 0; classes.len()]?;
    for state in 0..count {
        leaders[classes[state] as usize] = state as u32;
    }
    Ok(leaders)
}

/// Whether no two states have one class.
pub fn are_alone(alloc: Global, classes: &[u32]) -> Result<bool, OutOfMemory>
    requires small { length classes.now ≤ 2 ^ 32 }
    requires below { All (λ class. class < length classes.now) classes.now }
    ensures { IfOk result (λ alone. IsTrue alone ↔ AreAlone classes.now) }
{
    let leaders = leaders(alloc, classes, classes.len())?;
    for place in 0..classes.len() {
        if leaders[classes[place] as usize] != place as u32 {
            return Ok(false);
        }
    }
    Ok(true)
}
