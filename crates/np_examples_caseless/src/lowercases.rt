//! Lowercases of a data file.
use np_examples_shared::want;
use np_foldings::{Lowercase, lowercases_of};
use std::test::Fail;

// Capital letters of which two have a lowercase, one has spaces around it, and one has no code; and both ends of a range.
const DATA: &str = "\
# a comment
0041;LATIN CAPITAL LETTER A;Lu;0;L;;;;;N;;;;0061;
00C5;X;Lu;0;L;0041 030A;;;;N;;;;  00E5 ;
0130;X;Lu;0;L;;;;;N;;;;69;
0061;X;Ll;0;L;;;;;N;;;0041;;0041
4E00;<X, First>;Lu;0;L;;;;;N;;;;0061;
9FFF;<X, Last>;Lu;0;L;;;;;N;;;;0061;
0042;X;Lu;0;L;;;;;N;;;;0062 0062;
";

#[test]
fn lowercases_are_those_of_field_thirteen(rt: HostRuntime) -> Result<(), Fail> {
    let pairs = lowercases_of(rt.alloc(), DATA.as_bytes())?;
    let wanted = [
        Lowercase {
            code: 0x41,
            lower: 0x61,
        },
        Lowercase {
            code: 0xC5,
            lower: 0xE5,
        },
    ];
    want(
        pairs.as_slice() == wanted.as_slice(),
        "two have a lowercase",
    )
}
