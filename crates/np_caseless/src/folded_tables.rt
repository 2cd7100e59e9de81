//! Tables of versions with their foldings.
ghost use Rattle.std.specs.Prelude.{◌≡◌, ◌⊎◌, length, IfOk, IfErr, IfSome, IsTrue, OnOk};
ghost use Rattle.np_caseless.specs.Conditions.{IsSoundFolding};
ghost use Rattle.np_caseless.specs.ConditionFaults.{IsFaultless, IsLeastFault};
ghost use Rattle.np_caseless.specs.Folded.{folded_by};
ghost use Rattle.np_caseless.specs.inside.AsciiFoldings.{FoldsAscii};
ghost use Rattle.np_caseless.specs.inside.FirstFaults.{AreMapped};
ghost use Rattle.np_caseless.specs.inside.ImageTables.{AreAllImages};
ghost use Rattle.np_caseless.specs.inside.SimpleImages.{AreLowered, AreOfForm, AreOfForms, LowerAscii};
ghost use Rattle.np_caseless.specs.inside.SimpleTexts.{AreOwn};
ghost use Rattle.np_code_points.specs.Forms.{is_compat};
ghost use Rattle.np_caseless.specs.declared.faults.ConditionFault.TheVariants.{Memory as OutOfMemory};

use crate::ascii::ascii_foldings;
use crate::faults::ConditionFault;
use crate::first_faults::first_fault;
use crate::image_tables::Images;
use crate::mapped_rows::mapped_codes;
use crate::simple_images::SimpleImages;
use crate::simple_texts::KnownImages;
use np_code_points::Form;
use np_foldings::{Foldings, Lowercase};
use np_versions::NormTable;
use std::alloc::Global;
use std::marker::Model;

/// A table of a version with its foldings, which meet the conditions together. Contracts see the version and the foldings.
/// The table may be lent: then the foldings are owned and the table is not. What may stand in place of a code point before its
/// caseless key's last normalization is worked out once for all of them, and so is what ASCII folds to.
#[derive(Drop)]
pub struct FoldedTable<T: NormTable + Drop> {
    table: T,
    foldings: Foldings,
    canonical: Images,
    compatible: Images,
    ascii: Option<Vec<u8>>,
    simple: SimpleImages,
}

impl<T: NormTable + Drop> Model for FoldedTable<T> {
    ghost use Rattle.std.specs.Prelude.{IfSome};
    ghost use Rattle.np_caseless.specs.Conditions.{IsSoundFolding};
    ghost use Rattle.np_caseless.specs.Folded.{FoldedVersion, folded_by};
    ghost use Rattle.np_caseless.specs.inside.AsciiFoldings.{FoldsAscii};
    ghost use Rattle.np_caseless.specs.inside.ImageTables.{HaveImages};
    ghost use Rattle.np_caseless.specs.inside.SimpleImages.{AreLowered, AreOfForms};

    ghost Value = { FoldedVersion };

    ghost view = { λ a. folded_by (T.model a.table) a.foldings };

    ghost invariant = { λ a. IsSoundFolding (folded_by (T.model a.table) a.foldings)
        × HaveImages (folded_by (T.model a.table) a.foldings) a.canonical a.compatible
        × IfSome a.ascii (λ bytes. FoldsAscii (folded_by (T.model a.table) a.foldings) bytes.items)
        × AreOfForms (folded_by (T.model a.table) a.foldings) a.simple
        × AreLowered a.simple };
}

/// Tells the fault at the least code point, where there is one, else the code points that have a mapping in the file.
fn judge<T: NormTable>(
    alloc: Global,
    table: &T,
    foldings: &Foldings,
    lowercases: &[Lowercase],
) -> Result<Vec<char>, ConditionFault>
    ensures mapped { IfOk result (λ codes. AreMapped (T.model table.now) codes.items) }
    ensures faultless { OnOk result (IsFaultless (folded_by (T.model table.now) foldings.now) lowercases.now) }
    ensures fault { IfErr result (λ f. (f ≡ OutOfMemory) ⊎ IsLeastFault (folded_by (T.model table.now) foldings.now) lowercases.now f) }
{
    let mapped = mapped_codes(alloc, table)?;
    match first_fault(alloc, table, foldings, lowercases, mapped.as_slice())? {
        Some(fault) => Err(fault),
        None => Ok(mapped),
    }
}

impl<T: NormTable + Drop> FoldedTable<T> {
    /// The table with these foldings, where its version has none of the five faults with them. `lowercases` are those of the
    /// data file of which the version was made (`np_foldings::lowercases_of`): a file of foldings that is cut, or older than
    /// its data, lacks some of them. In time linear in the code points, with memory for the form of one.
    ///
    /// # Errors
    ///
    /// The fault at the least code point, and of the faults there the first in the list of [`ConditionFault`]; or `Memory`.
    pub fn build(
        alloc: Global,
        table: T,
        foldings: Foldings,
        lowercases: &[Lowercase],
    ) -> Result<FoldedTable<T>, ConditionFault>
        ensures folded { IfOk result (λ made. made ≡ folded_by (T.model table) foldings) }
        ensures faultless { OnOk result (IsFaultless (folded_by (T.model table) foldings) lowercases.now) }
        ensures fault { IfErr result (λ f. (f ≡ OutOfMemory) ⊎ IsLeastFault (folded_by (T.model table) foldings) lowercases.now f) }
    {
        let mapped = judge(alloc, &table, &foldings, lowercases)?;
        let codes = mapped.as_slice();
        table.meets_conditions();
        foldings.are_in_order();
        let canonical = Images::build(alloc, &table, &foldings, false, codes)?;
        let compatible = Images::build(alloc, &table, &foldings, true, codes)?;
        let ascii = ascii_foldings(alloc, &table, &foldings)?;
        let simple = SimpleImages::build(alloc, &table, &canonical, &compatible)?;
        Ok(FoldedTable {
            table,
            foldings,
            canonical,
            compatible,
            ascii,
            simple,
        })
    }

    /// Does nothing at run time: the version meets the conditions with its foldings, as each that was built does.
    pub fn meets_conditions(&self)
        ensures { IsSoundFolding self.now }
    {
        let _ = &self.foldings;
    }

    /// The images by one kind of normalization.
    pub(crate) fn images(&self, compat: bool) -> &Images
        ensures { AreAllImages self.now compat result.now }
    {
        if compat {
            &self.compatible
        } else {
            &self.canonical
        }
    }

    /// The images that are as long as their code points.
    fn simple_images(&self) -> &SimpleImages
        ensures images { AreOfForms self.now result.now }
        ensures lowers { AreLowered result.now }
    {
        &self.simple
    }

    /// The images that are known where a key of the form is made code point by code point.
    pub(crate) fn known_images(&self, wanted: Form) -> KnownImages<'_>
        ensures simple { AreOfForm self.now wanted result.simple.now }
        ensures own { AreOwn self.now (is_compat wanted) result.own.now }
        ensures lowers { IsTrue result.lowers → LowerAscii result.simple.now }
    {
        let images = self.simple_images();
        KnownImages {
            simple: images.by_form(wanted),
            own: self.images(wanted.compat()).own.as_slice(),
            lowers: images.lowers,
        }
    }

    /// What each character of ASCII folds to, at its place, where that makes the caseless keys of texts of ASCII under each form:
    /// each byte by itself.
    pub fn ascii(&self) -> Option<&[u8]>
        ensures { IfSome result (λ bytes. FoldsAscii self.now bytes.now) }
    {
        match &self.ascii {
            Some(bytes) => Some(bytes.as_slice()),
            None => None,
        }
    }

    /// The table.
    pub fn table(&self) -> &T
        ensures { T.model result.now ≡ self.now.version }
    {
        &self.table
    }

    /// The foldings.
    pub fn foldings(&self) -> &Foldings
        ensures { result.now ≡ self.now.foldings }
    {
        &self.foldings
    }
}
