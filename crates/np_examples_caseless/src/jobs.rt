//! Why jobs on caseless keys are refused, in words.
use np_caseless::{ConditionFault, FoldedBreak, FoldedBreakKind};
use np_caseless_job::{CaselessFault, FoldedFault};
use np_examples_shared::told::want_told;
use np_foldings::{FoldingFault, RecordFault};
use std::test::Fail;

const FILES_TOLD: &[(FoldedFault, &str)] = &[
    (
        FoldedFault::Folding {
            version: 0,
            fault: FoldingFault::BadRecord {
                line: 3,
                fault: RecordFault::BadStatus,
            },
        },
        "version 0 folding: line 3: the status is none of C, F, S and T",
    ),
    (
        FoldedFault::Condition {
            version: 1,
            fault: ConditionFault::NotFolded { code: 0x41 },
        },
        "version 1 folding: 0041 has a lowercase, and neither of the two folds",
    ),
];

const REFUSALS_TOLD: &[(CaselessFault, &str)] = &[
    (
        CaselessFault::NotExtension {
            brk: FoldedBreak {
                kind: FoldedBreakKind::FoldingChanged,
                code: 0x41,
            },
        },
        "not an extension: version 1 FoldingChanged 0041",
    ),
    (CaselessFault::Memory, "out of memory"),
];

#[test]
fn refusals_are_told_in_words(rt: HostRuntime) -> Result<(), Fail> {
    want_told(rt.alloc(), FILES_TOLD)?;
    want_told(rt.alloc(), REFUSALS_TOLD)
}
