//! Texts and their canonical forms under the first fixture's version.
/// A text, its NFD and its NFC.
pub(super) const CANONICAL: &[(&str, &str, &str)] = &[
    ("", "", ""),
    ("\u{61}\u{302}\u{323}", "\u{61}\u{323}\u{302}", "\u{1EAD}"),
    ("\u{212B}", "\u{41}\u{30A}", "\u{C5}"),
    ("\u{344}", "\u{308}\u{301}", "\u{308}\u{301}"),
    ("\u{958}", "\u{915}\u{93C}", "\u{915}\u{93C}"),
    (
        "\u{61}\u{301}\u{302}",
        "\u{61}\u{301}\u{302}",
        "\u{61}\u{301}\u{302}",
    ),
    (
        "\u{41}\u{327}\u{30A}",
        "\u{41}\u{327}\u{30A}",
        "\u{C5}\u{327}",
    ),
    ("\u{FB01}", "\u{FB01}", "\u{FB01}"),
    ("\u{D4DB}", "\u{1111}\u{1171}\u{11B6}", "\u{D4DB}"),
    (
        "\u{1111}\u{1171}\u{11B6}",
        "\u{1111}\u{1171}\u{11B6}",
        "\u{D4DB}",
    ),
    (
        "\u{AC00}\u{11A7}",
        "\u{1100}\u{1161}\u{11A7}",
        "\u{AC00}\u{11A7}",
    ),
    ("\u{AC00}\u{11A8}", "\u{1100}\u{1161}\u{11A8}", "\u{AC01}"),
    (
        "\u{AC01}\u{11A8}",
        "\u{1100}\u{1161}\u{11A8}\u{11A8}",
        "\u{AC01}\u{11A8}",
    ),
    // the least and the greatest of the pairs, and neighbours of pairs that are none
    ("\u{C5}", "\u{41}\u{30A}", "\u{C5}"),
    ("\u{1EA1}\u{302}", "\u{61}\u{323}\u{302}", "\u{1EAD}"),
    ("\u{61}\u{302}", "\u{61}\u{302}", "\u{E2}"),
    ("\u{41}\u{301}", "\u{41}\u{301}", "\u{41}\u{301}"),
    ("\u{61}\u{30A}", "\u{61}\u{30A}", "\u{61}\u{30A}"),
    // the first of two non-starters of one class composes, and the second then stands behind it
    (
        "\u{61}\u{302}\u{301}",
        "\u{61}\u{302}\u{301}",
        "\u{E2}\u{301}",
    ),
    // a non-starter between two starters that would compose
    (
        "\u{1100}\u{301}\u{1161}",
        "\u{1100}\u{301}\u{1161}",
        "\u{1100}\u{301}\u{1161}",
    ),
    (
        "\u{AC00}\u{301}\u{11A8}",
        "\u{1100}\u{1161}\u{301}\u{11A8}",
        "\u{AC00}\u{301}\u{11A8}",
    ),
    // non-starters with no starter before them, and a starter that composes with nothing behind
    ("\u{302}\u{323}", "\u{323}\u{302}", "\u{323}\u{302}"),
    (
        "\u{302}\u{323}\u{66}",
        "\u{323}\u{302}\u{66}",
        "\u{323}\u{302}\u{66}",
    ),
    (
        "\u{61}\u{302}\u{323}\u{66}\u{61}",
        "\u{61}\u{323}\u{302}\u{66}\u{61}",
        "\u{1EAD}\u{66}\u{61}",
    ),
    // a composite within a segment; non-starters that compose with nothing, in front of one that does,
    // behind it, and of its class
    ("\u{E2}\u{301}", "\u{61}\u{302}\u{301}", "\u{E2}\u{301}"),
    (
        "\u{61}\u{327}\u{302}",
        "\u{61}\u{327}\u{302}",
        "\u{E2}\u{327}",
    ),
    (
        "\u{61}\u{323}\u{302}\u{301}\u{66}\u{302}",
        "\u{61}\u{323}\u{302}\u{301}\u{66}\u{302}",
        "\u{1EAD}\u{301}\u{66}\u{302}",
    ),
    (
        "\u{61}\u{301}\u{302}\u{327}",
        "\u{61}\u{327}\u{301}\u{302}",
        "\u{61}\u{327}\u{301}\u{302}",
    ),
    (
        "\u{1100}\u{1161}\u{301}",
        "\u{1100}\u{1161}\u{301}",
        "\u{AC00}\u{301}",
    ),
    // the last trailing consonant, and the last syllable
    ("\u{AC00}\u{11C2}", "\u{1100}\u{1161}\u{11C2}", "\u{AC1B}"),
    ("\u{D788}\u{11C2}", "\u{1112}\u{1175}\u{11C2}", "\u{D7A3}"),
    (
        "\u{1112}\u{1161}\u{11AB}",
        "\u{1112}\u{1161}\u{11AB}",
        "\u{D55C}",
    ),
    // what stands between syllables, and what composes there
    (
        "\u{1112}\u{1161}\u{11AB}\u{66}\u{AC00}",
        "\u{1112}\u{1161}\u{11AB}\u{66}\u{1100}\u{1161}",
        "\u{D55C}\u{66}\u{AC00}",
    ),
    (
        "\u{1112}\u{1161}\u{11AB}\u{66}\u{1112}\u{1161}\u{11AB}",
        "\u{1112}\u{1161}\u{11AB}\u{66}\u{1112}\u{1161}\u{11AB}",
        "\u{D55C}\u{66}\u{D55C}",
    ),
    (
        "\u{1112}\u{1161}\u{11AB}\u{61}\u{302}\u{D55C}",
        "\u{1112}\u{1161}\u{11AB}\u{61}\u{302}\u{1112}\u{1161}\u{11AB}",
        "\u{D55C}\u{E2}\u{D55C}",
    ),
];
