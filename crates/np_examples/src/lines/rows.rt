//! Inputs and the answers to their lines.
use np_code_points::Form;
use np_examples_shared::Files;
use np_lines::{LineEnd, Wanted};

pub(super) const BY_LF: Wanted = Wanted {
    form: Form::Nfc,
    end: LineEnd::Lf,
};

pub(super) const DECOMPOSED: Wanted = Wanted {
    form: Form::Nfd,
    end: LineEnd::Lf,
};

pub(super) const BY_NUL: Wanted = Wanted {
    form: Form::Nfc,
    end: LineEnd::Nul,
};

/// What ends a line and its answer, an input, its answers, and whether one is a refusal.
pub(super) type Row = (Wanted, &'static str, &'static [u8], &'static str, bool);

/// Over the first fixture.
pub(super) const ROWS: &[Row] = &[
    (BY_LF, "no line", b"", "", false),
    (BY_LF, "an empty line", b"\n", "=\n", false),
    (BY_LF, "no end", b"a", "=a\n", false),
    (BY_LF, "an end", b"a\n\nA", "=a\n=\n=A\n", false),
    (
        BY_LF,
        "the key",
        b"a\xcc\x82\xcc\xa3\nA\xcc\x8a\n",
        "=\u{1EAD}\n=\u{C5}\n",
        false,
    ),
    (
        BY_LF,
        "unassigned",
        b"a\xf0\x96\xb5\xa7\nA",
        "!unassigned 16D67 at byte 1\n=A\n",
        true,
    ),
    (
        BY_LF,
        "a CR is part of its line",
        b"a\r\n",
        "!unassigned 000D at byte 1\n",
        true,
    ),
    (
        BY_LF,
        "no text",
        b"A\nafi\xff\n\xcc",
        "=A\n!not UTF-8 at byte 3\n!not UTF-8 at byte 0\n",
        true,
    ),
    (
        BY_LF,
        "no text is told first",
        b"\xf0\x96\xb5\xa7\xff\n",
        "!not UTF-8 at byte 4\n",
        true,
    ),
    (
        BY_LF,
        "NUL ends no line",
        b"a\0A",
        "!unassigned 0000 at byte 1\n",
        true,
    ),
    (
        BY_NUL,
        "NUL ends lines",
        b"a\0A\nA\0",
        "=a\0!unassigned 000A at byte 1\0",
        true,
    ),
];

/// A version that maps a code point to LF.
pub(super) const MAPS_TO_LF: Files = (
    "\
000A;X;Cc;0;B;;;;;N;;;;;
0041;X;Lu;0;L;;;;;N;;;;;
00C5;X;Lu;0;L;000A;;;;N;;;;;
",
    "",
);

/// A version of all of ASCII that maps another code point to LF.
pub(super) const ASCII_MAPS_TO_LF: Files = (
    "\
0000;<ASCII, First>;Ll;0;L;;;;;N;;;;;
007F;<ASCII, Last>;Ll;0;L;;;;;N;;;;;
00E9;X;Ll;0;L;000A;;;;N;;;;;
",
    "",
);

pub(super) const ASCII_LF_ROWS: &[Row] = &[
    (
        DECOMPOSED,
        "a key that has LF, between others",
        b"a\n\xc3\xa9\nb\n",
        "=a\n!line end in key\n=b\n",
        true,
    ),
    (DECOMPOSED, "no key that has LF", b"a\nb", "=a\n=b\n", false),
];

pub(super) const LF_ROWS: &[Row] = &[
    (
        BY_LF,
        "a key that has LF",
        b"A\xc3\x85\nA",
        "!line end in key\n=A\n",
        true,
    ),
    (BY_NUL, "LF in a key", b"A\xc3\x85", "=A\n\0", false),
];

/// Over a version that assigns all of ASCII.
pub(super) const LETTER_ROWS: &[Row] = &[
    (BY_LF, "NUL in a line", b"a\0b", "=a\0b\n", false),
    (BY_NUL, "LF in a line", b"a\nb", "=a\nb\0", false),
    (
        BY_LF,
        "lines that change between lines that don't",
        b"ab\nae\xcc\x81b\n\xcc\x81\n\n\xe4\xb8\x80\ne\xcc\x81\nab",
        "=ab\n=a\u{E9}b\n=\u{301}\n=\n=\u{4E00}\n=\u{E9}\n=ab\n",
        false,
    ),
    (
        DECOMPOSED,
        "lines that decompose",
        b"ab\na\xc3\xa9b\n\n\xe4\xb8\x80\n\xc3\xa9",
        "=ab\n=ae\u{301}b\n=\n=\u{4E00}\n=e\u{301}\n",
        false,
    ),
    (
        DECOMPOSED,
        "a line that begins with a non-starter",
        b"\xc3\xa9\n\xcc\x81\xcc\x96\n",
        "=e\u{301}\n=\u{316}\u{301}\n",
        false,
    ),
    (
        DECOMPOSED,
        "an unassigned code point behind lines that decompose",
        b"\xc3\xa9\nb\xc3\xa8\n\xc3\xa9\n",
        "=e\u{301}\n!unassigned 00E8 at byte 1\n=e\u{301}\n",
        true,
    ),
    (
        BY_LF,
        "an unassigned code point behind lines that don't change",
        b"ab\nb\xc3\xa8\nab\n",
        "=ab\n!unassigned 00E8 at byte 1\n=ab\n",
        true,
    ),
    (
        BY_LF,
        "a line that is no text between others",
        b"ab\na\xffe\xcc\x81\nab\ne\xcc\x81\n",
        "=ab\n!not UTF-8 at byte 1\n=ab\n=\u{E9}\n",
        true,
    ),
];
