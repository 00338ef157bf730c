//! Plans of numbers, of their multiples by doubling, and of their quotients.

ghost use Rattle.std.specs.Prelude.{◌≡◌, ℕ, ◌≤◌, ◌<◌, map, length, IfOk};
ghost use Rattle.term_plans.specs.TermPlans.{numeral_plan, no_times, multiple as multiple_plan, parted as parted_plan, below as below_plan, quotient_made, scaling_made, scaled as scaled_plan, scaled_all};
ghost use Rattle.term_plans.specs.TermPlanning.{scaling_view};
ghost use Rattle.term_plans.specs.Makings.{track_view, plan_at};
ghost use Rattle.term_plans.specs.Planning.{Does, DoesTerm, IsWithin, placed_at, placed_plan};

use crate::making::Making;
use crate::planner::{Placed, Planner};
use crate::track::Track;
use digit_tuple::faults::OutOfMemory;
use digit_tuple::name::Name;
use formula_parse::tree::{Connective, Relation};

/// By what a value is multiplied, or divided.
#[derive(Clone, Copy)]
pub(crate) enum Scaling {
    Times(u64),
    Over(u64),
}

/// Two tracks of a system, the second for a multiple of the number on the first, or for a quotient.
#[derive(Clone, Copy)]
struct Scale<'a> {
    system: &'a Name,
    value: &'a Track,
    product: &'a Track,
}

/// A number on a fresh track, by the step `const`.
pub(crate) fn numeral(
    planner: &mut Planner,
    system: &Name,
    number: u64,
) -> Result<Placed, OutOfMemory>
    ensures { IfOk result (λ placed. DoesTerm planner.old planner.new placed (numeral_plan system.now number planner.old.next)) }
{
    let track = Track::Fresh(planner.fresh()?);
    let place = planner.constant(system, number, &track)?;
    Ok(Placed {
        track,
        relation: Some(place),
    })
}

/// 0 times a number: the constant 0, and any number.
fn no_multiple(planner: &mut Planner, scale: Scale<'_>) -> Result<usize, OutOfMemory>
    ensures { IfOk result (λ place. Does planner.old planner.new place (no_times scale.entry.system.now (track_view scale.entry.value.now) (track_view scale.entry.product.now) planner.old.next)) }
{
    let zero = planner.constant(scale.system, 0, scale.product)?;
    let any = planner.any_number(scale.system, scale.value)?;
    let both = planner.make(Making::Joined(Connective::And, zero, any))?;
    Ok(both)
}

/// So many times a number, by doubling. Calls go 128 deep at most.
fn multiple(planner: &mut Planner, scale: Scale<'_>, times: u64) -> Result<usize, OutOfMemory>
    ensures { IfOk result (λ place. (most : ℕ) → times ≤ most → Does planner.old planner.new place (multiple_plan most scale.entry.system.now times (track_view scale.entry.value.now) (track_view scale.entry.product.now) planner.old.next)) }
{
    if times == 0 {
        return no_multiple(planner, scale);
    }
    if times == 1 {
        return planner.compared(scale.system, Relation::Equal, scale.value, scale.product);
    }
    if times == 2 {
        return planner.added(scale.system, scale.value, scale.value, scale.product);
    }
    let part = Track::Fresh(planner.fresh()?);
    let inside = Scale {
        product: &part,
        ..scale
    };
    if times % 2 == 0 {
        let half = multiple(planner, inside, times / 2)?;
        let twice = planner.added(scale.system, &part, &part, scale.product)?;
        let linked = planner.link(half, twice, &part)?;
        Ok(linked)
    } else {
        let less = multiple(planner, inside, times - 1)?;
        let more = planner.added(scale.system, &part, scale.value, scale.product)?;
        let linked = planner.link(less, more, &part)?;
        Ok(linked)
    }
}

/// The number on the first track, parted: its quotient on the second, times the divisor, and what is left.
fn parted(
    planner: &mut Planner,
    scale: Scale<'_>,
    divisor: u64,
    part: &Track,
    rest: &Track,
) -> Result<usize, OutOfMemory>
    ensures { IfOk result (λ place. Does planner.old planner.new place (parted_plan scale.entry.system.now divisor (track_view scale.entry.value.now) (track_view scale.entry.product.now) (track_view part.now) (track_view rest.now) planner.old.next)) }
{
    let back = Scale {
        system: scale.system,
        value: scale.product,
        product: part,
    };
    let times = multiple(planner, back, divisor)?;
    let sum = planner.added(scale.system, part, rest, scale.value)?;
    let linked = planner.link(times, sum, part)?;
    Ok(linked)
}

/// A number below the divisor.
fn below(
    planner: &mut Planner,
    system: &Name,
    divisor: u64,
    rest: &Track,
    bound: &Track,
) -> Result<usize, OutOfMemory>
    ensures { IfOk result (λ place. Does planner.old planner.new place (below_plan system.now divisor (track_view rest.now) (track_view bound.now) planner.old.next)) }
{
    let constant = planner.constant(system, divisor, bound)?;
    let less = planner.compared(system, Relation::Less, rest, bound)?;
    let linked = planner.link(constant, less, bound)?;
    Ok(linked)
}

/// The quotient of a number by a divisor, on the second track.
fn quotient(planner: &mut Planner, scale: Scale<'_>, divisor: u64) -> Result<usize, OutOfMemory>
    ensures { IfOk result (λ place. Does planner.old planner.new place (quotient_made scale.entry.system.now divisor (track_view scale.entry.value.now) (track_view scale.entry.product.now) planner.old.next)) }
{
    if divisor == 1 {
        return planner.compared(scale.system, Relation::Equal, scale.value, scale.product);
    }
    let part = Track::Fresh(planner.fresh()?);
    let rest = Track::Fresh(planner.fresh()?);
    let bound = Track::Fresh(planner.fresh()?);
    let whole = parted(planner, scale, divisor, &part, &rest)?;
    let small = below(planner, scale.system, divisor, &rest, &bound)?;
    let linked = planner.link(small, whole, &rest)?;
    Ok(linked)
}

/// The second number made of the first.
fn make_scaled(
    planner: &mut Planner,
    scale: Scale<'_>,
    scaling: Scaling,
) -> Result<usize, OutOfMemory>
    ensures { IfOk result (λ place. Does planner.old planner.new place (scaling_made scale.entry.system.now (scaling_view scaling) (track_view scale.entry.value.now) (track_view scale.entry.product.now) planner.old.next)) }
{
    match scaling {
        Scaling::Times(times) => multiple(planner, scale, times),
        Scaling::Over(divisor) => quotient(planner, scale, divisor),
    }
}

/// A value times a number, or over one, on a fresh track.
fn scaled(
    planner: &mut Planner,
    system: &Name,
    value: &Placed,
    factor: Scaling,
) -> Result<Placed, OutOfMemory>
    requires { IsWithin planner.old.plans value.now.relation }
    ensures { IfOk result (λ placed. DoesTerm planner.old planner.new placed (scaled_plan system.now (placed_plan (placed_at planner.old.plans value.now) planner.old.next) (scaling_view factor))) }
{
    let track = Track::Fresh(planner.fresh()?);
    let scale = Scale {
        system,
        value: &value.track,
        product: &track,
    };
    let made = make_scaled(planner, scale, factor)?;
    let closed = planner.close(value, made)?;
    Ok(Placed {
        track,
        relation: Some(closed),
    })
}

/// A value times some numbers, and over others, in their order.
pub(crate) fn scaled_by_all(
    planner: &mut Planner,
    system: &Name,
    value: Placed,
    scalings: &[Scaling],
) -> Result<Placed, OutOfMemory>
    requires { IsWithin planner.old.plans value.relation }
    ensures { IfOk result (λ placed. DoesTerm planner.old planner.new placed (scaled_all system.now (placed_plan (placed_at planner.old.plans value) planner.old.next) (map scaling_view scalings.now))) }
{
    let mut product = value;
    for scaling in scalings {
        product = scaled(planner, system, &product, *scaling)?;
    }
    Ok(product)
}
