//! The numbers of digits, and where the digits of numbers lead.

ghost use Rattle.std.specs.Prelude.{◌≡◌, ◌≤◌, ◌^◌, length};
ghost use Rattle.digit_tuple.specs.Letters.{IsWord};
ghost use Rattle.minimise.proofs.LeadLemmas.{lead};
ghost use Rattle.base_change.specs.Digits.{lowest_digits, value_lsd};

use digit_tuple::dfa::Dfa;
use minimise::sink::next_state;

/// The number that digits in base `root` denote, the least significant digit first.
pub(crate) fn number_of(root: u32, digits: &[u32]) -> u32
    requires digits { IsWord root digits.now }
    requires few { root ^ length digits.now ≤ 65536 }
    ensures { result ≡ value_lsd root digits.now }
{
    let mut number = 0;
    let mut place = digits.len();
    while place > 0 {
        place -= 1;
        number = number * root + digits[place];
    }
    number
}

/// Where so many lowest digits of a number in base `root` lead from a state, the least significant digit first. A
/// missing transition leads to the sink, the number past the states.
pub(crate) fn lead_digits(dfa: &Dfa, from: u32, root: u32, digits: u32, number: u32) -> u32
    requires { 2 ≤ root }
    ensures { result ≡ lead dfa.now from (lowest_digits root digits number) }
{
    let mut state = from;
    let mut rest = number;
    let mut left = digits;
    while left > 0 {
        state = next_state(dfa, state, rest % root);
        rest /= root;
        left -= 1;
    }
    state
}
