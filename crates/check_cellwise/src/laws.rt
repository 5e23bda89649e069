//! Laws of checking.
ghost use Rattle.check_cellwise.specs.Lengths.{PartsAreToldByLengths};

/// `subarray` is refused by the exact lengths of its part, although those of a schema stay within 64 bits.
pub fn parts_are_told_by_lengths()
    ensures { PartsAreToldByLengths }
{}
