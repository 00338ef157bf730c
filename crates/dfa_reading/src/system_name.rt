//! Names of systems in a header.

ghost use Rattle.std.specs.Prelude.{◌≡◌, ◌≤◌, ◌^◌, true, IsAscii, IfOk};
ghost use Rattle.text_grammar.specs.Systems.{is_system as is_system_text};
ghost use Rattle.dfa_reading.specs.Systems.{digit_limit as limit_of};

use digit_tuple::faults::OutOfMemory;
use digit_tuple::name::Name;
use std::alloc::Global;
use std::marker::Model;
use std::str;
use system_names::built_in;

// One above the greatest digit that the format takes where the system is not built in.
const OTHER_LIMIT: u64 = 4294967296;

/// The name of a system, seen as its bytes. It knows which digits the format takes on the system's tracks.
#[derive(Drop)]
pub struct SystemName {
    name: Name,
    limit: u64,
}

impl Model for SystemName {
    ghost use Rattle.std.specs.Prelude.{◌≡◌, ℕ, List};
    ghost use Rattle.dfa_reading.specs.Systems.{digit_limit};

    ghost Value = { List ℕ };

    ghost view = { λ s. s.name };

    ghost invariant = { λ s. s.limit ≡ digit_limit s.name };
}

impl SystemName {
    /// The system of this name.
    pub fn new(name: Name) -> Self
        ensures { result ≡ name }
    {
        let limit = limit(&name);
        SystemName { name, limit }
    }

    /// The name.
    pub fn name(&self) -> &Name
        ensures { result.now ≡ self.now }
    {
        &self.name
    }

    #[tactic(auto, using(crate::proofs::SystemNames::limit_small))]
    /// One above the greatest digit that the format takes on the system's tracks: k in base k, 2 in the Fibonacci system,
    /// and 2^32 where the system is not built in.
    pub fn digit_limit(&self) -> u64
        ensures value { result ≡ limit_of self.now }
        ensures small { result ≤ 2 ^ 32 }
    {
        self.limit
    }
}

// The limit of a system's digits.
fn limit(name: &Name) -> u64
    ensures { result ≡ limit_of name.now }
{
    match built_in(name.as_bytes()) {
        Some(system) => u64::from(system.digits()),
        None => OTHER_LIMIT,
    }
}

/// The system that a part names.
#[tactic(auto, using(crate::proofs::SystemNames::ascii_system))]
pub fn system(alloc: Global, part: &[u8]) -> Result<SystemName, OutOfMemory>
    requires { is_system_text part.now ≡ true }
    ensures { IfOk result (λ system. system ≡ part.now) }
{
    Ok(SystemName::new(name_of(alloc, part)?))
}

// A name of ASCII bytes.
fn name_of(alloc: Global, bytes: &[u8]) -> Result<Name, OutOfMemory>
    requires { IsAscii bytes.now }
    ensures { IfOk result (λ name. name ≡ bytes.now) }
{
    let text = str::from_utf8(bytes).unwrap();
    Name::new(alloc, text)
}
