//! The laws of the grammar of CaseFolding.txt, over the definitions alone: each function is empty, and its contract is
//! what is proved.
ghost use Rattle.np_foldings.specs.Laws.{HasOneListOfRecords, HasOneVerdict};

/// Without comments and the blanks around, each file has one list of records (UAX #44, section 4.2).
pub fn records()
    ensures { HasOneListOfRecords }
{}

/// CaseFolding.txt has one list of foldings, or one first fault: that of the least faulty line, and
/// there of the least test that fits. It never has both.
pub fn verdict()
    ensures { HasOneVerdict }
{}
