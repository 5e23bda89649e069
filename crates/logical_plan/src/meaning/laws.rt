//! Laws of meaning.
ghost use Rattle.logical_plan.specs.Reads.{MeaningReadsLeaves};

/// Two databases with the same rows at each leaf of a plan give it the same meaning.
pub fn meaning_reads_leaves()
    ensures { MeaningReadsLeaves }
{}
