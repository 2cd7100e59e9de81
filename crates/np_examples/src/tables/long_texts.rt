//! What passes the quick check in long texts, where the table of pages looks at many bytes at a time.
use np_code_points::Form;
use np_examples_shared::{Example, LETTERS, Made, amid, holds_over, want};
use np_tables::PageTable;
use np_versions::NormTable;
use std::alloc::Global;
use std::test::Fail;

// Pieces of two letters and a character of two or three bytes, and one in which many characters have two.
const TWO: &str = "ab\u{E9}";

const THREE: &str = "ab\u{4E00}";

const MANY: &str = "a\u{E9}";

// A form, a piece that stands before and behind something a hundred times, that something, and how many bytes at
// the front pass the quick check: of any code points, and of assigned ones.
type Row = (Form, &'static str, &'static str, usize, usize);

const AMID: &[Row] = &[
    // an accent that goes into the letter before it, where the form composes
    (Form::Nfc, TWO, "e\u{301}", 401, 401),
    (Form::Nfkc, TWO, "e\u{301}", 401, 401),
    (Form::Nfc, MANY, "e\u{301}", 301, 301),
    (Form::Nfd, THREE, "e\u{301}", 1003, 1003),
    // non-starters whose classes fall, rise, or stand behind starters of their own
    (Form::Nfc, THREE, "\u{315}\u{316}", 502, 502),
    (Form::Nfkd, THREE, "\u{315}\u{316}", 502, 502),
    (Form::Nfc, THREE, "\u{315}\u{1DCE}", 502, 502),
    (Form::Nfd, THREE, "\u{316}\u{315}", 1004, 1004),
    (Form::Nfd, THREE, "\u{1DCE}\u{315}", 1005, 1005),
    (Form::Nfc, THREE, "\u{315}a\u{316}", 1005, 1005),
    (Form::Nfd, THREE, "\u{315}\u{4E00}\u{316}", 1007, 1007),
    // four bytes
    (Form::Nfc, TWO, "\u{20000}", 804, 804),
    (Form::Nfd, THREE, "\u{315}\u{20000}\u{316}", 1008, 1008),
    // what is not assigned
    (Form::Nfc, TWO, "\u{20001}", 804, 400),
    (Form::Nfd, THREE, "\u{4E01}", 1003, 500),
    // a character of three bytes that the end of 64 bytes cuts, by one or two of its bytes or not at all
    (Form::Nfc, THREE, "", 1000, 1000),
    (Form::Nfc, THREE, "c", 1001, 1001),
    (Form::Nfc, THREE, "cc", 1002, 1002),
    // classes that fall behind such an end, which cuts the first non-starter or stands between the two, and
    // non-starters with a letter between them there
    (Form::Nfd, THREE, "ccccccccccccc\u{315}\u{316}", 515, 515),
    (Form::Nfd, THREE, "cccccccccccc\u{315}\u{316}", 514, 514),
    (Form::Nfd, THREE, "ccccccccccccc\u{315}c\u{316}", 1018, 1018),
    (Form::Nfd, THREE, "ccccccccccc\u{315}c\u{316}", 1016, 1016),
];

/// Fails unless so many bytes pass in front of and in the midst of a long text.
fn tells_span_amid<T: NormTable>(alloc: Global, table: &T, row: &Row) -> Result<(), Fail> {
    let text = amid(alloc, row.1, row.2)?;
    let any = table.quick_span(row.0, false, text.as_str()).count == row.3;
    let assigned = table.quick_span(row.0, true, text.as_str()).count == row.4;
    want(any && assigned, row.2)
}

/// Quick spans that end in the midst of long texts.
struct Amid;

impl Example for Amid {
    fn holds<T: Made>(&self, alloc: Global, table: &T) -> Result<(), Fail> {
        for row in AMID {
            tells_span_amid(alloc, table, row)?;
        }
        Ok(())
    }
}

#[test]
fn quick_spans_of_long_texts_end_where_the_quick_check_does(rt: HostRuntime) -> Result<(), Fail> {
    holds_over::<PageTable, Amid>(rt.alloc(), LETTERS, &Amid)
}
