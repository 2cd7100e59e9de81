//! What is told of two versions with their foldings.

/// The folders of the old version and of the new one, and their breaks; `extends` where there is none.
pub const AUDITS: &[(&str, &str, &str)] = &[
    ("v1", "v1", "extends"),
    ("v1", "v2", "extends"),
    (
        "v1",
        "changed",
        "FoldingChanged 0041, FoldingChanged E010, FoldingChanged E020",
    ),
    (
        "v2",
        "v1",
        "Lost 1DFA, Lost 16D63, Lost 16D67, Lost 16D68, Lost 16D69, Lost 16D6A",
    ),
    ("v2", "v2", "extends"),
    (
        "v2",
        "changed",
        "FoldingChanged 0041, FoldingChanged E010, FoldingChanged E020",
    ),
    (
        "changed",
        "v1",
        "FoldingChanged 0041, Lost 1DFA, FoldingChanged E010, FoldingChanged E020, Lost 16D63, Lost 16D67, Lost 16D68, Lost 16D69, Lost 16D6A",
    ),
    (
        "changed",
        "v2",
        "FoldingChanged 0041, FoldingChanged E010, FoldingChanged E020",
    ),
    ("changed", "changed", "extends"),
];
