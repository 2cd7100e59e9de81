//! Nodes from their images.
ghost use Rattle.std.specs.Prelude.{◌≡◌, ◌≤◌, None, IfErr, OnOk};
ghost use Rattle.np_node.specs.Restoring.{AnswersRestore, IsOlder};
ghost use Rattle.np_node.specs.inside.Shapes.{IsOlderRefusal};

use crate::faults::{ImageFault, NodeFault};
use crate::fields::{Fields, Told};
use crate::images::{Head, read_head, shape_of};
use crate::nodes::{MOST_ROOM, Node};
use crate::taking::Taken;
use np_code_points::Form;
use np_versions::NormTable;
use std::alloc::Global;

/// The refusal of a whole image.
fn whole(fault: NodeFault) -> ImageFault
    ensures { (result.entry ≡ None) × (result.fault ≡ fault) }
{
    ImageFault { entry: None, fault }
}

/// Whether a table has as many assigned code points as an image needs.
fn check_needs<T: NormTable>(table: &T, needs: Option<u32>) -> Result<(), ImageFault>
    ensures ok { OnOk result (¬ IsOlder (T.model table.now) needs) }
    ensures err { IfErr result (IsOlderRefusal (T.model table.now) needs) }
{
    let Some(need) = needs else {
        return Ok(());
    };
    let have = table.version().count();
    if have < need {
        return Err(whole(NodeFault::OlderTables { need, have }));
    }
    Ok(())
}

impl<'t, T: NormTable> Node<'t, T> {
    ghost use Rattle.std.specs.Prelude.{◌≡◌, ◌<◌, [], length};
    ghost use Rattle.np_node.specs.Nodes.{state_of, with_entry, IsKept};
    ghost use Rattle.np_node.specs.Strings.{IsEntry};
    ghost use Rattle.np_node.specs.inside.Reading.{told_entry};
    ghost use Rattle.np_node.specs.inside.Shapes.{HasShape, IsEntryRefusal};

    /// The node of an image of either layout, under a table, with a form and a room. No key of
    /// the image is trusted: each is made anew. Linear in the image's length, but for what the
    /// forms cost.
    ///
    /// # Errors
    ///
    /// In this order, with no entry's number: `Malformed` where the bytes are no image, and
    /// `OtherForm`. `OlderTables` where an image of the second layout was saved under a version
    /// with more assigned code points than the table's. `Full` where there are more entries than
    /// the room. Then for the first entry that is wrong, with its number from 0: `TooLong`,
    /// `NotUtf8`, `Unassigned`, `KeyDiffers`, and `Malformed` at the entry's first byte where an
    /// earlier entry has the string. `Memory` has no entry's number, and can come in place of
    /// anything behind the shape, the form, the version and the room.
    pub fn restore(
        alloc: Global,
        table: &'t T,
        form: Form,
        room: u32,
        image: &[u8],
    ) -> Result<Node<'t, T>, ImageFault>
        requires { room ≤ MOST_ROOM }
        ensures { AnswersRestore T.model table.now form room image.now result }
    {
        let head = match shape_of(image) {
            Ok(head) if head.form == form => head,
            Ok(_) => return Err(whole(NodeFault::OtherForm)),
            Err(at) => return Err(whole(NodeFault::Malformed { at })),
        };
        check_needs(table, head.needs)?;
        if head.count > room {
            return Err(whole(NodeFault::Full));
        }
        Node::new(alloc, table, form, room).filled(image, head)
    }

    /// The empty node with the entries of an image.
    fn filled(mut self, image: &[u8], head: Head) -> Result<Node<'t, T>, ImageFault>
        requires empty { self.entries ≡ [] }
        requires shape { HasShape image.now head.needs self.form head.count }
        requires young { ¬ IsOlder (T.model self.table) head.needs }
        requires room { head.count ≤ self.room }
        ensures { AnswersRestore T.model self.entry.table self.entry.form self.entry.room image.now result }
    {
        let mut fields = Fields::new(image);
        if let Err(at) = read_head(&mut fields) {
            return Err(whole(NodeFault::Malformed { at }));
        }
        for number in 0..head.count {
            let at = fields.place();
            let told = match fields.spelled(head.needs) {
                Ok(told) => told,
                Err(at) => return Err(whole(NodeFault::Malformed { at })),
            };
            if let Err(refused) = self.restore_entry(told, number, at) {
                return Err(refused);
            }
        }
        Ok(self)
    }

    /// Keeps entry `number`, which begins at `at`.
    fn restore_entry(&mut self, told: Told<'_>, number: u32, at: usize) -> Result<(), ImageFault>
        requires { length self.old.entries < self.old.room }
        ensures ok { OnOk result (IsEntry (T.model self.old.table) self.old.form (told_entry told.entry)) }
        ensures new { OnOk result (¬ IsKept self.old.entries (told_entry told.entry).string) }
        ensures node { OnOk result (self.new ≡ with_entry self.old (told_entry told.entry)) }
        ensures err { IfErr result (IsEntryRefusal (state_of T.model self.old) (told_entry told.entry) number at) }
    {
        let fault = match self.take_told(told) {
            Ok(Taken::Kept) => return Ok(()),
            Ok(Taken::Known) => NodeFault::Malformed { at },
            Err(NodeFault::Memory) => return Err(whole(NodeFault::Memory)),
            Err(fault) => fault,
        };
        Err(ImageFault {
            entry: Some(number),
            fault,
        })
    }
}
