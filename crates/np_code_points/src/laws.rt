//! The laws of lines and words, over the definitions alone: each function is empty, and its
//! contract is what is proved.
ghost use Rattle.np_code_points.specs.Laws.{HasOneCut, HasOneListOfDataLines, HasOneListOfWords, HasOneText};

/// LF ends a line, and a last line may stand without it (UAX #44, section 4.2): each file is cut
/// into lines in exactly one way.
pub fn lines()
    ensures { HasOneCut }
{}

/// A line may end in CR LF: one CR at its end, and no other, is dropped (UAX #44, section 4.2).
pub fn carriage_returns()
    ensures { HasOneText }
{}

/// The data lines of a file are those that are no comments and not blank (UAX #44, section 4.2),
/// each with the number of its line, in their order; and no other list is.
pub fn data_lines()
    ensures { HasOneListOfDataLines }
{}

/// Each text is cut into words in exactly one way.
pub fn words()
    ensures { HasOneListOfWords }
{}
