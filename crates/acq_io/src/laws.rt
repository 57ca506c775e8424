//! Laws of the definitions, as contracts of functions that do nothing.

ghost use Rattle.acq_io.specs.Laws.{LinesAreRead, CutLinesEnd, LongLinesAreRefused};
ghost use Rattle.acq_io.specs.Laws.{FirstLinesAreRead, OnlyLinesAreRead, LongFirstLinesAreRefused};

/// What a line gives: read, cut off by the end, or too long. There is no fourth case.
pub fn lines_are_read()
    ensures whole { LinesAreRead }
    ensures cut { CutLinesEnd }
    ensures long { LongLinesAreRefused }
{}

/// What a first line gives: read with its newline, read to the end, or too long. There is no fourth
/// case.
pub fn first_lines_are_read()
    ensures whole { FirstLinesAreRead }
    ensures only { OnlyLinesAreRead }
    ensures long { LongFirstLinesAreRefused }
{}
