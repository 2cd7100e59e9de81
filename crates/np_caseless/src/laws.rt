//! The laws of caseless keys, over the definitions alone: each function is empty, and its contract is what is proved.
ghost use Rattle.np_caseless.specs.Laws.{AlongChains, Backward, ConditionsAreMet, EquivalentsHaveOneKey, FewBytes, FewCodePoints};
ghost use Rattle.np_caseless.specs.Laws.{OneCaselessKey, OneKeyIsOneMatch, OwnKey, Stability};

/// Under each version that meets the conditions, a string has exactly one caseless list of each form.
pub fn one_key()
    ensures { OneCaselessKey }
{}

/// Two strings have one caseless list exactly where they match caselessly by the kind of the form (The Unicode Standard,
/// D145 and D146). So two forms of one kind tell the same.
pub fn one_match()
    ensures { OneKeyIsOneMatch }
{}

/// Canonical equivalents have one caseless list, of each form: so a string may be normalized under NFC or NFD before.
/// Compatible equivalents needn't have one.
pub fn equivalents()
    ensures { EquivalentsHaveOneKey }
{}

/// A caseless list is a normal form, and its own caseless list, where the folding meets its conditions.
pub fn own()
    ensures { OwnKey }
{}

/// Where a later version extends an earlier one with its folding, a string that the earlier one assigns has one caseless
/// list under both, which the earlier one assigns.
pub fn stability()
    ensures one { Stability }
    ensures transitive { AlongChains }
{}

/// Where a later version extends an earlier one with its folding, the caseless list under the later one of a string that is
/// assigned there is its own under the earlier one: code points that the earlier one lacks count there as starters that
/// neither map nor fold. It doesn't say that the earlier version assigns the list's code points, nor that the string itself
/// has this list there.
pub fn backward()
    ensures { Backward }
{}

/// A caseless list has at most 64 code points for each code point of its string, and a caseless key at most 256 bytes
/// for each byte, where the folding meets its conditions.
pub fn length()
    ensures code_points { FewCodePoints }
    ensures bytes { FewBytes }
{}

/// The premises of these laws are met by unlike versions with a folding: one of three rows in which a letter folds, and one
/// with Hangul syllables and jamo besides, which extends it.
pub fn conditions_are_met()
    ensures { ConditionsAreMet }
{}
