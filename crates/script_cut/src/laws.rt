ghost use Rattle.std.specs.Prelude.{Result};
ghost use Rattle.wal_outside.specs.Views.{SourceView};
ghost use Rattle.script_cut.specs.Cuts.{Rest};
ghost use Rattle.script_cut.specs.Kept.{Kept};
ghost use Rattle.script_cut.specs.Laws.{HasOneNext, HasOneList, GivesReportedItem};
ghost use Rattle.script_cut.specs.Prefixes.{HasNextOrEnd, ItemsStay, PrefixHasFirstItems};
ghost use Rattle.script_cut.specs.declared.cut.Cut.{Cut};
ghost use Rattle.script_cut.specs.declared.cut.CutFault.{CutFault};

/// A law, with nothing to run: the next item at a place of a script is determined, and so are all its items.
pub fn one_cut()
    ensures next { (place : Rest) → HasOneNext place }
    ensures list { (place : Rest) → HasOneList place }
{}

/// A law, with nothing to run: each place of a script has a next item, or is at the script's end.
pub fn next_or_end()
    ensures { (place : Rest) → HasNextOrEnd place }
{}

/// A law, with nothing to run: the items of a text that ends after a terminator are the first ones of each longer text. Whatever comes
/// after an item that has its terminator does not change it.
pub fn longer_cut()
    ensures stay { (place : Rest) → ItemsStay place }
    ensures first { (place : Rest) → PrefixHasFirstItems place }
{}

/// A law, with nothing to run: where the source reports what it has left, a call gives the next item of what the cutter
/// held and the source had left, and what both have then is what follows it.
pub fn reported_cut()
    ensures { (old : Kept) (from : SourceView) (result : Result Cut CutFault) (new : Kept) (to : SourceView) → GivesReportedItem old from result new to }
{}
