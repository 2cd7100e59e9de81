//! What a table of pages tells beforehand: what passes the quick check, where boundaries are, and what the forms of single code points are.
use np_code_points::Form;
use np_examples_shared::{Example, Files, Made, V1, holds_over, want};
use np_tables::{PageTable, RowTable};
use np_versions::NormTable;
use std::alloc::Global;
use std::test::Fail;

// How many bytes at the front of a text pass the quick check: composites and syllables come
// back, singletons and excluded ones don't, nor what has a mapping that counts. Non-starters follow
// where no class is less than the one before and, where the form composes, they are no second parts. A
// second part follows a code point that blocks it, or one without a mapping with which it has no composite.
// A leading consonant is not taken to pass where the form composes.
const QUICK_SPANS: &[(Form, &str, usize)] = &[
    (Form::Nfc, "\u{915}\u{302}", 5),
    (Form::Nfkc, "\u{915}\u{302}\u{30A}\u{1161}", 10),
    (Form::Nfc, "\u{915}\u{323}\u{302}", 5),
    (Form::Nfc, "\u{915}\u{302}\u{323}", 5),
    (Form::Nfc, "\u{AC01}\u{11A8}", 3),
    (Form::Nfc, "A\u{E2}\u{1EAD}\u{AC01}\u{D7A3}", 12),
    (Form::Nfkc, "A\u{E2}\u{1EAD}\u{AC01}\u{D7A3}", 12),
    (Form::Nfd, "A\u{E2}", 1),
    (Form::Nfkd, "A\u{AC00}", 1),
    (Form::Nfc, "\u{E2}\u{302}", 2),
    (Form::Nfc, "A\u{212B}", 1),
    (Form::Nfc, "\u{958}", 0),
    (Form::Nfc, "\u{FB01}", 3),
    (Form::Nfkc, "\u{FB01}", 0),
    (Form::Nfc, "\u{AC00}\u{11A8}", 3),
    (Form::Nfd, "a\u{323}\u{302}", 5),
    (Form::Nfd, "a\u{302}\u{323}", 3),
    (Form::Nfd, "\u{302}a\u{327}\u{302}", 7),
    (Form::Nfd, "a\u{327}\u{344}", 3),
    (Form::Nfd, "f\u{302}\u{FB01}", 6),
    (Form::Nfkd, "f\u{302}\u{FB01}", 3),
    (Form::Nfc, "A\u{327}\u{323}", 3),
    (Form::Nfc, "\u{E2}\u{327}", 4),
    (Form::Nfd, "\u{1112}\u{1175}\u{11C2} \u{1100}\u{1161}", 16),
    (Form::Nfc, "\u{D788}A\u{AC00}\u{AC01}\u{1100}\u{1161}", 10),
    (Form::Nfkc, "\u{D788}A\u{1112}\u{1175}", 4),
    (Form::Nfd, "afifififififififififififififififia\u{212B}", 34),
    (
        Form::Nfd,
        "afififififififi\u{323}fififififififia\u{212B}",
        32,
    ),
    (Form::Nfkc, "", 0),
];

// What is not assigned passes too, but where assigned code points are asked for.
const LACKING: &[(Form, &str, usize, usize)] = &[
    (Form::Nfd, "A\u{16D67}A", 6, 1),
    (Form::Nfc, "A\u{16D67}A", 6, 1),
    (Form::Nfkd, "\u{10FFFF}", 4, 0),
    (Form::Nfd, "\u{16D67}\u{302}", 6, 0),
    (Form::Nfc, "A\u{E2}\u{AC01}", 6, 6),
    (Form::Nfc, "\u{D788} A", 5, 3),
];

// Pointed Hebrew: a letter, three points, and three presentation forms, which are excluded.
const HEBREW: Files = (
    "\
05B7;X;Mn;17;R;;;;;N;;;;;
05BC;X;Mn;21;R;;;;;N;;;;;
05C1;X;Mn;24;R;;;;;N;;;;;
05E9;X;Lo;0;R;;;;;N;;;;;
FB2A;X;Lo;0;R;05E9 05C1;;;;N;;;;;
FB2C;X;Lo;0;R;FB49 05C1;;;;N;;;;;
FB49;X;Lo;0;R;05E9 05BC;;;;N;;;;;
",
    "FB2A\nFB2C\nFB49\n",
);

// The same of pointed Hebrew.
const HEBREW_SPANS: &[(Form, &str, usize)] = &[
    (Form::Nfc, "\u{5E9}\u{5B7}\u{5BC}\u{5C1}\u{5E9}", 10),
    (Form::Nfd, "\u{5E9}\u{5B7}\u{5BC}\u{5C1}\u{5E9}", 10),
    (Form::Nfc, "\u{5E9}\u{5BC}\u{5B7}", 4),
    (Form::Nfd, "\u{5E9}\u{5C1}\u{5BC}", 4),
    (Form::Nfc, "\u{5E9}\u{FB2C}", 2),
];

// Two composites of a letter, and non-starters: 0300 and 0323 are their second parts, and 05AE has a class
// between those of the two.
const ACCENTS: Files = (
    "\
0061;X;Ll;0;L;;;;;N;;;;;
00E0;X;Ll;0;L;0061 0300;;;;N;;;;;
0300;X;Mn;230;NSM;;;;;N;;;;;
0301;X;Mn;230;NSM;;;;;N;;;;;
0315;X;Mn;232;NSM;;;;;N;;;;;
0323;X;Mn;220;NSM;;;;;N;;;;;
05AE;X;Mn;228;NSM;;;;;N;;;;;
1EA1;X;Ll;0;L;0061 0323;;;;N;;;;;
",
    "",
);

// The same behind a composite: what never composes backward follows, be its class below that of a part or not. What
// composes with a part doesn't, though it has no composite with the whole.
const ACCENTED_SPANS: &[(Form, &str, usize)] = &[
    (Form::Nfc, "\u{E0}\u{5AE}", 4),
    (Form::Nfkc, "\u{E0}\u{5AE}", 4),
    (Form::Nfd, "\u{E0}\u{5AE}", 0),
    (Form::Nfc, "\u{E0}\u{5AE}\u{315}", 6),
    (Form::Nfc, "\u{E0}\u{5AE}\u{301}\u{300}a", 9),
    (Form::Nfc, "\u{E0}\u{315}\u{5AE}", 4),
    (Form::Nfc, "\u{E0}\u{315}\u{1EA1}\u{5AE}", 9),
    (Form::Nfc, "\u{E0}\u{323}", 2),
    (Form::Nfc, "\u{E0}\u{300}", 2),
    (Form::Nfc, "\u{E0}\u{5AE}\u{323}", 4),
    (Form::Nfc, "\u{E0}\u{5AE}\u{300}", 4),
];

// Whether a boundary of a form is before a code point.
const BOUNDARIES: &[(Form, char, bool)] = &[
    (Form::Nfd, '\u{E2}', true),
    (Form::Nfc, '\u{E2}', true),
    (Form::Nfkd, '\u{AC01}', true),
    (Form::Nfd, '\u{1161}', true),
    (Form::Nfc, '\u{1161}', false),
    (Form::Nfc, '\u{1100}', true),
    (Form::Nfd, '\u{302}', false),
    (Form::Nfkc, '\u{344}', false),
];

fn tells_quick_spans<T: NormTable>(table: &T, rows: &[(Form, &str, usize)]) -> Result<(), Fail> {
    for row in rows {
        let span = table.quick_span(row.0, false, row.1);
        want(span.count == row.2, row.1)?;
    }
    Ok(())
}

// Whether a boundary is told to be behind the front of a text that passes.
const ENDING: &[(Form, &str, bool)] = &[
    (Form::Nfd, "A\u{E2}", true),
    (Form::Nfc, "A\u{302}", false),
    (Form::Nfkc, "A\u{1100}\u{1161}", true),
    (Form::Nfc, "A", true),
];

fn tells_boundaries_behind<T: NormTable>(
    table: &T,
    rows: &[(Form, &str, bool)],
) -> Result<(), Fail> {
    for row in rows {
        let span = table.quick_span(row.0, false, row.1);
        want(span.boundary == row.2, row.1)?;
    }
    Ok(())
}

fn tells_assigned_spans<T: NormTable>(
    table: &T,
    rows: &[(Form, &str, usize, usize)],
) -> Result<(), Fail> {
    for row in rows {
        let any = table.quick_span(row.0, false, row.1).count == row.2;
        let assigned = table.quick_span(row.0, true, row.1).count == row.3;
        want(any && assigned, row.1)?;
    }
    Ok(())
}

fn tells_boundaries<T: NormTable>(table: &T, rows: &[(Form, char, bool)]) -> Result<(), Fail> {
    for row in rows {
        want(table.is_boundary(row.0, row.1) == row.2, "a boundary")?;
    }
    Ok(())
}

// The form of a code point by itself: none is told where it has no mapping of the kind, or where its full
// decomposition begins with no starter and the form composes.
const PRECOMPUTED: &[(Form, char, &str)] = &[
    (Form::Nfd, '\u{E2}', "a\u{302}"),
    (Form::Nfd, '\u{1EAD}', "a\u{323}\u{302}"),
    (Form::Nfd, '\u{344}', "\u{308}\u{301}"),
    (Form::Nfkd, '\u{212B}', "A\u{30A}"),
    (Form::Nfkd, '\u{FB01}', "fi"),
    (Form::Nfkc, '\u{FB01}', "fi"),
    (Form::Nfc, '\u{FB01}', ""),
    (Form::Nfd, 'A', ""),
    (Form::Nfd, '\u{AC00}', ""),
    (Form::Nfc, '\u{E2}', "\u{E2}"),
    (Form::Nfc, '\u{212B}', "\u{C5}"),
    (Form::Nfkc, '\u{344}', ""),
];

/// Whether a table has this precomputed form of a code point; the empty text is for none.
fn has_precomputed<T: NormTable>(table: &T, form: Form, c: char, text: &str) -> bool {
    match table.precomputed(form, c) {
        Some(kept) => kept.count == text.len() && kept.bytes.starts_with(text.as_bytes()),
        None => text.is_empty(),
    }
}

fn has_each<T: NormTable>(table: &T, rows: &[(Form, char, &str)]) -> Result<(), Fail> {
    for row in rows {
        // a borrowed table keeps what the table keeps
        want(has_precomputed(&table, row.0, row.1, row.2), row.2)?;
    }
    Ok(())
}

fn has_none<T: NormTable>(table: &T, rows: &[(Form, char, &str)]) -> Result<(), Fail> {
    for row in rows {
        want(has_precomputed(table, row.0, row.1, ""), row.2)?;
    }
    Ok(())
}

// All of ASCII, as one range.
const ASCII: Files = (
    "\
0000;<ASCII, First>;Lu;0;L;;;;;N;;;;;
007F;<ASCII, Last>;Lu;0;L;;;;;N;;;;;
",
    "",
);

const FORMS: &[Form] = &[Form::Nfd, Form::Nfc, Form::Nfkd, Form::Nfkc];

/// Whether a table tells of each form that leading consonants are boundaries, and that ASCII passes, as
/// it is wanted.
fn tells_once<T: NormTable>(table: &T, leads: bool, ascii: bool) -> bool {
    for form in FORMS {
        let boundaries = table.leading_consonants_are_boundaries(*form);
        if boundaries != leads || table.ascii_passes(*form) != ascii {
            return false;
        }
    }
    true
}

/// What a table of pages tells of the first fixture.
fn tells_of_the_first<T: NormTable>(table: &T) -> Result<(), Fail> {
    tells_assigned_spans(table, LACKING)?;
    tells_boundaries_behind(table, ENDING)?;
    tells_boundaries(table, BOUNDARIES)?;
    has_each(table, PRECOMPUTED)
}

/// What a table of pages tells beforehand, and a plain table doesn't.
#[derive(Clone, Copy)]
enum Hint {
    /// Quick spans of so many bytes.
    Spans(&'static [(Form, &'static str, usize)]),
    /// What else is told of the first fixture.
    First,
    /// That no form is precomputed.
    NonePrecomputed,
    /// Whether leading consonants are boundaries, and whether ASCII passes.
    Once(bool, bool),
}

impl Example for Hint {
    fn holds<T: Made>(&self, _alloc: Global, table: &T) -> Result<(), Fail> {
        match self {
            Hint::Spans(rows) => tells_quick_spans(table, rows),
            Hint::First => tells_of_the_first(table),
            Hint::NonePrecomputed => has_none(table, PRECOMPUTED),
            Hint::Once(leads, ascii) => want(
                tells_once(&table, *leads, *ascii),
                "leading consonants are boundaries, and ASCII passes",
            ),
        }
    }
}

#[test]
fn quick_spans_are_of_what_passes_the_quick_check(rt: HostRuntime) -> Result<(), Fail> {
    let alloc = rt.alloc();
    holds_over::<PageTable, Hint>(alloc, V1, &Hint::Spans(QUICK_SPANS))?;
    holds_over::<PageTable, Hint>(alloc, HEBREW, &Hint::Spans(HEBREW_SPANS))?;
    holds_over::<PageTable, Hint>(alloc, ACCENTS, &Hint::Spans(ACCENTED_SPANS))
}

#[test]
fn boundaries_and_precomputed_forms_are_told(rt: HostRuntime) -> Result<(), Fail> {
    holds_over::<PageTable, Hint>(rt.alloc(), V1, &Hint::First)
}

#[test]
fn what_holds_of_each_form_is_told_once(rt: HostRuntime) -> Result<(), Fail> {
    holds_over::<PageTable, Hint>(rt.alloc(), V1, &Hint::Once(true, false))?;
    holds_over::<PageTable, Hint>(rt.alloc(), ASCII, &Hint::Once(true, true))
}

#[test]
fn a_plain_table_tells_nothing(rt: HostRuntime) -> Result<(), Fail> {
    holds_over::<RowTable, Hint>(rt.alloc(), V1, &Hint::NonePrecomputed)?;
    holds_over::<RowTable, Hint>(rt.alloc(), ASCII, &Hint::Once(false, false))
}
