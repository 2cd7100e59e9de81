//! Two versions with their foldings, read and built.
ghost use Rattle.std.specs.Prelude.{◌≡◌, ◌++◌, IfOk, IfErr, OnOk};
ghost use Rattle.std.specs.List.{AllZip};
ghost use Rattle.np_caseless_job.specs.FoldedVersions.{contents_of, folded_readers_of};
ghost use Rattle.np_caseless_job.specs.Pairs.{LacksOne, WereFolded};
ghost use Rattle.np_jobs.specs.Opening.{IsUnopened};
ghost use Rattle.np_jobs.specs.Streams.{stream_of};
ghost use Rattle.np_words.specs.CaselessWords.{folded_names_of};

use crate::faults::FoldedFault;
use crate::files::{OpenFiles, open_folded};
use crate::versions::read_folded;
use np_caseless::FoldedTable;
use np_code_points::watched::Watched;
use np_jobs::{MadeTable, Opener};
use np_words::FoldedFiles;
use std::alloc::Global;
use std::io::{Read, Write};

/// The files of two versions, opened.
#[derive(Drop)]
pub(crate) struct OpenPair<F> {
    pub first: OpenFiles<F>,
    pub second: OpenFiles<F>,
}

/// Opens the files of two versions, the old one's first.
pub(crate) fn open_pair<O: Opener, E: Write>(
    opener: &O,
    alloc: Global,
    error: &mut Watched<E>,
    old: &FoldedFiles,
    new: &FoldedFiles,
) -> Result<OpenPair<O::File>, u8>
    ensures files { IfOk result (λ pair. AllZip (O.gives opener.now) (folded_names_of old.now ++ folded_names_of new.now)
        (contents_of O.File.remaining pair.first ++ contents_of O.File.remaining pair.second)) }
    ensures silent { OnOk result (error.new ≡ error.old) }
    ensures told { IfErr result (IsUnopened (O.gives opener.now) (O.lacks opener.now) (folded_names_of old.now ++ folded_names_of new.now)
        (stream_of E.contents error.old error.new)) }
{
    let first = open_folded(opener, alloc, error, old)?;
    let second = open_folded(opener, alloc, error, new)?;
    Ok(OpenPair { first, second })
}

/// Reads the files of two versions, the old one's first.
pub(crate) fn read_pair<T: MadeTable, F: Read>(
    alloc: Global,
    pair: &mut OpenPair<F>,
) -> Result<(FoldedTable<T>, FoldedTable<T>), FoldedFault>
    ensures folded { IfOk result (λ both. WereFolded (record {
      first = folded_readers_of F.remaining pair.old.first pair.new.first;
      second = folded_readers_of F.remaining pair.old.second pair.new.second;
    }) both.0 both.1) }
    ensures refused { IfErr result (LacksOne (record {
      first = folded_readers_of F.remaining pair.old.first pair.new.first;
      second = folded_readers_of F.remaining pair.old.second pair.new.second;
    })) }
{
    pair.second.clear();
    let old = read_folded(alloc, 0, &mut pair.first)?;
    let new = read_folded(alloc, 1, &mut pair.second)?;
    Ok((old, new))
}
