//! Steps without a limit.

ghost use Rattle.std.specs.Prelude.{◌≡◌, Ok, IfOk};
ghost use Rattle.std.specs.Result.{IsErrOf};

use digit_tuple::faults::{OpFault, OutOfMemory};

// What a step without a limit gives: nothing but memory may be wanting where its letters are few enough.
pub(crate) fn without_limit<T: Drop>(step: Result<T, OpFault>) -> Result<T, OutOfMemory>
    requires { ¬ IsErrOf step OpFault.Letters }
    ensures { IfOk result (λ made. step ≡ Ok made) }
{
    match step {
        Ok(made) => Ok(made),
        Err(OpFault::Letters) => unreachable!(),
        Err(OpFault::States) => Err(OutOfMemory),
        Err(OpFault::Memory) => Err(OutOfMemory),
    }
}
