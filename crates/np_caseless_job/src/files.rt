//! The three files of a version with its folding.
ghost use Rattle.std.specs.Prelude.{◌≡◌, ◌++◌, IfOk, IfErr, OnOk};
ghost use Rattle.std.specs.List.{AllZip};
ghost use Rattle.np_caseless_job.specs.FoldedVersions.{contents_of};
ghost use Rattle.np_caseless_job.specs.inside.PairSteps.{AreCleared};
ghost use Rattle.np_jobs.specs.Opening.{IsUnopened};
ghost use Rattle.np_jobs.specs.Streams.{stream_of};
ghost use Rattle.np_words.specs.CaselessWords.{folded_names_of};

use np_code_points::watched::Watched;
use np_jobs::{Opener, open_file, open_version};
use np_words::FoldedFiles;
use std::alloc::Global;
use std::io::Write;

/// The three files of a version, opened.
#[derive(Drop)]
pub struct OpenFiles<F> {
    /// UnicodeData.txt.
    pub data_file: Watched<F>,
    /// CompositionExclusions.txt.
    pub exclusions_file: Watched<F>,
    /// CaseFolding.txt.
    pub folding_file: Watched<F>,
}

impl<F> OpenFiles<F> {
    /// Takes the marks away.
    pub(crate) fn clear(&mut self)
        ensures { AreCleared self.old self.new }
    {
        self.data_file.clear();
        self.exclusions_file.clear();
        self.folding_file.clear();
    }
}

/// Opens the three files of a version, in the order of the words.
///
/// # Errors
///
/// The status that was told, of the first that can't be opened.
pub fn open_folded<O: Opener, E: Write>(
    opener: &O,
    alloc: Global,
    error: &mut Watched<E>,
    files: &FoldedFiles,
) -> Result<OpenFiles<O::File>, u8>
    ensures files { IfOk result (λ opened. AllZip (O.gives opener.now) (folded_names_of files.now) (contents_of O.File.remaining opened)) }
    ensures silent { OnOk result (error.new ≡ error.old) }
    ensures told { IfErr result (IsUnopened (O.gives opener.now) (O.lacks opener.now) (folded_names_of files.now)
        (stream_of E.contents error.old error.new)) }
{
    let (data_file, exclusions_file) = open_version(opener, alloc, error, &files.version)?;
    let folding_file = open_file(opener, alloc, error, files.folding_file.as_str())?;
    Ok(OpenFiles {
        data_file,
        exclusions_file,
        folding_file,
    })
}
