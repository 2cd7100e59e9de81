//! The laws of the grammar of both files, over the definitions alone: each function is empty, and
//! its contract is what is proved.
ghost use Rattle.std.specs.Prelude.{ℕ, List};
ghost use Rattle.np_ucd.specs.Laws.{HasOneBadLine, HasOneListOfFields, HasOneListOfRows, HasOneVerdict, ListsOneThing, SaysOneMapping, SaysOneText};

/// `;` stands between two fields of a record (UAX #44, section 4.2): each record is cut into fields
/// in exactly one way.
pub fn fields()
    ensures { HasOneListOfFields }
{}

/// A mapping's field says none, a canonical one of one or two code points, or, behind a tag in
/// `<` and `>`, a compatibility one of up to 32 (UAX #44, table 9), and never two of them.
pub fn mappings()
    ensures { SaysOneMapping }
{}

/// UnicodeData.txt has no fault, or exactly one first fault: that of the least faulty line, and
/// there of the least test that fits (UAX #44, table 9, and section 4.2.3 for the tests between two
/// records); a range that is open at the end comes last.
pub fn first_fault()
    ensures { (bytes : List ℕ) → HasOneVerdict bytes }
{}

/// The rows of UnicodeData.txt without a fault are those of its records that begin no range (UAX
/// #44, table 9, and section 4.2.3). Each has the code points, the class and the mapping that the
/// fields say. They are in the order of the code points, and no other list is right.
pub fn rows()
    ensures { HasOneListOfRows }
{}

/// A line of CompositionExclusions.txt says what stands before its first `#`, without the spaces
/// and tabs around (UAX #44, section 4.2), and nothing else.
pub fn exclusion_text()
    ensures { SaysOneText }
{}

/// It lists nothing, or the code points of one span, and not both.
pub fn exclusion_line()
    ensures { (line : List ℕ) → ListsOneThing line }
{}

/// Each line of CompositionExclusions.txt can be read, or exactly one is the first that can't.
pub fn first_bad_line()
    ensures { HasOneBadLine }
{}
