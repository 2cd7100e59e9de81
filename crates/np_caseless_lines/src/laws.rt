//! The laws of lines and their caseless answers, over the definitions alone.
ghost use Rattle.np_caseless_lines.specs.Laws.{CaselessAnswersAreLines, OneCaselessAnswer};

/// Under each version that meets the conditions a line has exactly one answer with a caseless key; and no answer has the
/// byte that ends lines, so that the lines of what is written are the answers, one for each line.
pub fn answers()
    ensures one { OneCaselessAnswer }
    ensures lines { CaselessAnswersAreLines }
{}
