//! The folding files of the fixtures.

/// That of the version v1.
pub const V1_FOLDING: &str =
    "# CaseFolding.txt of the toy version v1. Its letters are the project's own.\n# <code>; <status>; <mapping>; # <name>\n\n0041; C; 0061; # A\n0041; T; 0069; # is read, and not used\n0066; C; 0069; # so that the parts of FB01 fold\n00C5; F; 0061 030A; # is decomposed before it is folded, as in the published files\n00C5; S; 00E2; # is read, and not used\n0327; C; 0915; # a mark that folds to a starter, as U+0345 does\nE000; F; 0061 0061; # as sharp s\nE001; F; 0061 0061; # as capital sharp s\nE001; S; E000;\nE010; C; E00F; # as Cherokee: the small letter folds to the capital one\n# EOF\n";

/// That of the version v2.
pub const V2_FOLDING: &str =
    "# CaseFolding.txt of the toy version v2. Its letters are the project's own.\n# <code>; <status>; <mapping>; # <name>\n\n0041; C; 0061; # A\n0041; T; 0069; # is read, and not used\n0066; C; 0069; # so that the parts of FB01 fold\n00C5; F; 0061 030A; # is decomposed before it is folded, as in the published files\n00C5; S; 00E2; # is read, and not used\n0327; C; 0915; # a mark that folds to a starter, as U+0345 does\n1DFA; C; 0323; # a new mark folds to an old one\nE000; F; 0061 0061; # as sharp s\nE001; F; 0061 0061; # as capital sharp s\nE001; S; E000;\nE010; C; E00F; # as Cherokee: the small letter folds to the capital one\n16D63; C; 0061; # a new letter folds to an old one\n# EOF\n";

/// That of the version v2 with three foldings changed.
pub const CHANGED_FOLDING: &str =
    "# CaseFolding.txt of the toy version v2, with three foldings changed. Its letters are the project's own.\n# <code>; <status>; <mapping>; # <name>\n\n0041; C; 00E2; # A\n0041; T; 0069; # is read, and not used\n0066; C; 0069; # so that the parts of FB01 fold\n00C5; F; 0061 030A; # is decomposed before it is folded, as in the published files\n00C5; S; 00E2; # is read, and not used\n0327; C; 0915; # a mark that folds to a starter, as U+0345 does\n1DFA; C; 0323; # a new mark folds to an old one\nE000; F; 0061 0061; # as sharp s\nE001; F; 0061 0061; # as capital sharp s\nE001; S; E000;\nE020; C; 0061; # was assigned, and did not fold\n16D63; C; 0061; # a new letter folds to an old one\n# EOF\n";
