//! The laws of lines and their answers, over the definitions alone.
ghost use Rattle.np_lines.specs.Laws.{AnswersAreLines, OneAnswer, OneCut, OneListOfLines};

/// Bytes are cut into lines in exactly one way, whichever byte ends lines.
pub fn lines()
    ensures list { OneListOfLines }
    ensures cut { OneCut }
{}

/// Under each version that meets the conditions a line has exactly one answer; and no answer has the
/// byte that ends lines, so that the lines of what is written are the answers, one for each line.
pub fn answers()
    ensures one { OneAnswer }
    ensures lines { AnswersAreLines }
{}
