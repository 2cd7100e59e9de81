//! A table that several handles share, and its foldings where it has some.
ghost use Rattle.std.specs.Prelude.{◌≡◌, None, Some, IfOk, IfErr, option_map};
ghost use Rattle.std.specs.Arc.{arc_value};
ghost use Rattle.np_c.specs.Statuses.{alone};

use crate::answers::{Answer, NO_FOLDING};
use crate::shared_table::SharedTable;
use crate::workroom::Workroom;
use np_caseless::FoldedTable;
use np_code_points::Memory;
use np_tables::PageTable;
use std::alloc::Global;
use std::sync::Arc;

/// One owner of a table with its foldings.
pub type SharedFolded = Arc<FoldedTable<SharedTable>>;

/// One owner of a table, and what it works in.
#[derive(Drop)]
pub struct Shared {
    pub table: Arc<PageTable>,
    /// The same table with its foldings, where it was opened with three files.
    pub folded: Option<SharedFolded>,
    pub workroom: Workroom,
}

/// One more owner of a table with its foldings, where there is one.
fn another_folded(folded: &Option<SharedFolded>) -> Result<Option<SharedFolded>, Memory>
    ensures { IfOk result (λ another. option_map arc_value another ≡ option_map arc_value folded.now) }
{
    match folded {
        Some(folded) => Ok(Some(Arc::try_clone(folded)?)),
        None => Ok(None),
    }
}

impl Shared {
    /// The first owner of a table.
    ///
    /// # Errors
    ///
    /// `Memory` where memory ran out.
    pub fn new(alloc: Global, table: PageTable) -> Result<Shared, Memory>
        ensures table { IfOk result (λ s. arc_value s.table ≡ table) }
        ensures unfolded { IfOk result (λ s. s.folded ≡ None) }
    {
        Ok(Shared {
            table: Arc::new(alloc, table)?,
            folded: None,
            workroom: Workroom::new(alloc),
        })
    }

    /// One more owner of the table.
    ///
    /// # Errors
    ///
    /// `Memory` where it has too many.
    pub fn another(&self, alloc: Global) -> Result<Shared, Memory>
        ensures table { IfOk result (λ s. arc_value s.table ≡ arc_value self.now.table) }
        ensures folded { IfOk result (λ s. option_map arc_value s.folded ≡ option_map arc_value self.now.folded) }
    {
        Ok(Shared {
            table: Arc::try_clone(&self.table)?,
            folded: another_folded(&self.folded)?,
            workroom: Workroom::new(alloc),
        })
    }
    /// The table with its foldings.
    ///
    /// # Errors
    ///
    /// The answer that tells that it has none.
    pub fn with_foldings(&self) -> Result<&FoldedTable<SharedTable>, Answer>
        ensures folded { IfOk result (λ f. option_map arc_value self.now.folded ≡ Some f.now) }
        ensures unfolded { IfErr result (λ a. (a ≡ alone 26) × (option_map arc_value self.now.folded ≡ None)) }
    {
        match &self.folded {
            Some(folded) => Ok(&**folded),
            None => Err(Answer::of(NO_FOLDING)),
        }
    }
}
