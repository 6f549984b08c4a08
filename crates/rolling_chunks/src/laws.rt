//! The laws of cuts, over every text and every greatest length.
ghost use Rattle.rolling_chunks.specs.Laws.{CutsAreLeast, CutsStand, CutsBehind, SpansCover, SpanSizes, NothingToCut, PushesRun, RunsCut, PartsCut};

/// The cuts are the least places that the rule allows, one after another.
pub fn cuts_are_least()
    ensures { CutsAreLeast }
{}

/// What stands of the cuts stays, however the text goes on.
pub fn cuts_stand()
    ensures { CutsStand }
{}

/// What stands in front of a cut has no say in the cuts behind it.
pub fn cuts_behind()
    ensures { CutsBehind }
{}

/// The spans of a text cover it in order, without a gap and without overlap.
pub fn spans_cover()
    ensures { SpansCover }
{}

/// Each chunk but the last has 2,048 bytes up to the greatest length, and the last at least one.
pub fn span_sizes()
    ensures { SpanSizes }
{}

/// An empty text has no chunk.
pub fn nothing_to_cut()
    ensures { NothingToCut }
{}

/// Pushes of which none but the last answers are a run, and it ends a chunk where that one answers.
pub fn pushes_run()
    ensures { PushesRun }
{}

/// The lengths that the pushes of a text and one finish answer are the differences of its cuts.
pub fn runs_cut()
    ensures { RunsCut }
{}

/// The lengths that the runs of a text and one finish give are the differences of its cuts, however
/// the text is parted into runs.
pub fn parts_cut()
    ensures { PartsCut }
{}
