//! Multiples of a number by a factor, made by doubling.

ghost use Rattle.std.specs.Prelude.{◌≡◌, ◌∷◌, ◌<◌, [], IfOk};
ghost use Rattle.std.specs.List.{AllByRecursion};
ghost use Rattle.digit_tuple.specs.Names.{AreDistinct};
ghost use Rattle.num_system.specs.Sealed.{SystemValue};
ghost use Rattle.number_relations.specs.Relations.{IsRelation};
ghost use Rattle.number_relations.specs.Multiples.{addend, DoesGrowth, DoesMultiple, IsMultiple, lesser_factor as lesser_factor_of};

use crate::constant::constant_step;
use crate::join::join_step;
use crate::projection::project_step;
use crate::relation::Relation;
use digit_tuple::name::Name;
use digit_tuple::step_fault::StepFault;
use digit_tuple::steps::Steps;
use num_system::comparison::Comparison;
use num_system::sealed::is_sealed;
use num_system::system::System;
use product_op::op::Op;
use std::alloc::Global;
use std::rc::Rc;

/// The names of a multiple's tracks: that of the number, that of its multiple, and one for
/// lesser multiples while it is made. No two are the same.
#[derive(Clone, Copy)]
pub struct MultipleNames<'a> {
    pub number: &'a Name,
    pub multiple: &'a Name,
    pub between: &'a Name,
}

/// The relation that the multiple is the factor times the number, over one system, by the next steps.
///
/// For 0 these are `const` and `product`; for 1 and 2 there is none, as equality and the sum of a number
/// with itself are at hand. An even factor takes the multiple by its half and doubles it, and an odd one
/// takes the multiple by the factor before it and adds the number once more: each time by the steps
/// `product` and `project`. So there are at most four steps for each binary digit of the factor. The
/// widths and the costs are those of the steps.
///
/// # Errors
/// `Letters` and `States` exactly at the first step that passes a limit, letters before states.
pub fn multiple_steps(
    alloc: Global,
    system: &Rc<System>,
    factor: u64,
    names: MultipleNames<'_>,
    steps: &mut Steps,
) -> Result<Relation, StepFault>
    requires { AreDistinct (names.number.now ∷ names.multiple.now ∷ names.between.now ∷ []) }
    ensures steps { DoesMultiple system.now.value factor names.entry.number.now names.entry.multiple.now names.entry.between.now steps.old result steps.new }
    ensures multiple { IfOk result (IsMultiple system.now.value factor names.entry.number.now names.entry.multiple.now) }
{
    is_sealed(system.as_ref());
    match factor {
        0 => nothing_steps(alloc, system, names.number, names.multiple, steps),
        1 => Ok(Relation::comparison(
            alloc,
            system,
            Comparison::Equal,
            names.number,
            names.multiple,
        )?),
        2 => Ok(Relation::sum(alloc, system, names.number, names.number, names.multiple)?),
        _ => {
            let lesser_names = MultipleNames {
                number: names.number,
                multiple: names.between,
                between: names.multiple,
            };
            let lesser = multiple_steps(alloc, system, lesser_factor(factor), lesser_names, steps)?;
            let added = added_name(factor, names);
            let growth = Growth {
                lesser: names.between,
                added,
                greater: names.multiple,
            };
            growth_steps(alloc, system, &lesser, growth, steps)
        }
    }
}

// The relation that the multiple is 0, whatever the number is, by the steps `const` and `product`.
fn nothing_steps(
    alloc: Global,
    system: &Rc<System>,
    number: &Name,
    multiple: &Name,
    steps: &mut Steps,
) -> Result<Relation, StepFault>
    ensures { DoesMultiple system.now.value 0 number.now multiple.now multiple.now steps.old result steps.new }
{
    let zero = constant_step(alloc, system, 0, multiple, steps)?;
    let any = Relation::number(alloc, system, number)?;
    join_step(alloc, &zero, &any, Op::And, steps)
}

// The names of a lesser multiple, of what is added to it, and of the sum.
#[derive(Clone, Copy)]
struct Growth<'a> {
    lesser: &'a Name,
    added: &'a Name,
    greater: &'a Name,
}

// The relation of the greater multiple, from that of a lesser one, by the steps `product` and `project`.
fn growth_steps(
    alloc: Global,
    system: &Rc<System>,
    relation: &Relation,
    growth: Growth<'_>,
    steps: &mut Steps,
) -> Result<Relation, StepFault>
    requires relation { IsRelation relation.now }
    requires systems { AllByRecursion (λ (s : SystemValue). s ≡ system.now.value) relation.now.systems }
    ensures { DoesGrowth system.now.value growth.entry.added.now growth.entry.greater.now growth.entry.lesser.now relation.now steps.old result steps.new }
{
    let Growth {
        lesser,
        added,
        greater,
    } = growth;
    let sum = Relation::sum(alloc, system, lesser, added, greater)?;
    let joined = join_step(alloc, relation, &sum, Op::And, steps)?;
    project_step(alloc, &joined, lesser, steps)
}

// The factor whose multiple another one's is made from: half of an even one, one less than an odd one.
fn lesser_factor(factor: u64) -> u64
    requires { 2 < factor }
    ensures lesser { result ≡ lesser_factor_of factor }
    ensures below { result < factor }
{
    match factor % 2 {
        0 => factor / 2,
        _ => factor - 1,
    }
}

// What is added to the lesser multiple: itself for an even factor, the number for an odd one.
fn added_name<'a>(factor: u64, names: MultipleNames<'a>) -> &'a Name
    ensures { result.now ≡ addend factor names.entry.number.now names.entry.between.now }
{
    if factor % 2 == 0 {
        names.between
    } else {
        names.number
    }
}
