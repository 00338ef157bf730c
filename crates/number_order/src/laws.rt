//! Laws of orders, each a call that does nothing.

ghost use Rattle.number_order.specs.OrderWidth.{OrderAlikeIsEquivalence, OneOrderWidth, OrderWidthExcludes};

/// Words that an order does not distinguish are of one kind: they are alike as equals are.
pub fn kinds_are_classes()
    ensures { OrderAlikeIsEquivalence }
{}

/// The width of an order is one number.
pub fn order_has_one_width()
    ensures { OneOrderWidth }
{}

/// Where an order has a width, no more words than that are apart: so it is never refused under a limit
/// that the width is within.
pub fn width_excludes_refusal()
    ensures { OrderWidthExcludes }
{}
