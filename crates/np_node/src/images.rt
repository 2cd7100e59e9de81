//! Images, read and written.
ghost use Rattle.std.specs.Prelude.{◌≡◌, ◌≤◌, ◌<◌, ◌^◌, length, All, IfOk, IfErr, IfSome, IfNone, Some};
ghost use Rattle.np_node.specs.Fields.{FitsFields};
ghost use Rattle.np_node.specs.Images.{entries_bytes, head_bytes, image_bytes, image_name, needs_bytes, FitsNeeds, IsImageFault};
ghost use Rattle.np_node.specs.inside.Reading.{left_of, Passes};
ghost use Rattle.np_node.specs.inside.Writing.{IsWritten};
ghost use Rattle.np_node.specs.inside.Shapes.{layout_name, HasShape};
ghost use Rattle.np_node.specs.declared.images.Layout.TheVariants.{Second};
ghost use Rattle.np_versions.specs.Counts.{assigned_count};

use crate::entries::Entries;
use crate::fields::{Fields, same_bytes};
use crate::nodes::Node;
use crate::writing::{marked_length, put_bytes, put_marked, put_number};
use np_code_points::{Form, Memory};
use np_versions::NormTable;

/// What an image of the first layout begins with.
const FIRST_NAME: [u8; 4] = *b"NPS1";

/// What an image of the second layout begins with.
const SECOND_NAME: [u8; 4] = *b"NPS2";

/// The layout of an image.
#[derive(Clone, Copy)]
enum Layout {
    First,
    Second,
}

/// What stands before the entries of an image.
#[derive(Clone, Copy)]
pub(crate) struct Head {
    /// How many code points the version that saved assigns; none in the first layout.
    pub needs: Option<u32>,
    pub form: Form,
    /// How many entries follow.
    pub count: u32,
}

/// The layout whose name is in front.
fn read_name(fields: &mut Fields<'_>) -> Option<Layout>
    requires { fields.old.at ≡ 0 }
    ensures some { IfSome result (λ layout. Passes fields.old fields.new (layout_name layout)) }
    ensures none { IfNone result (IsImageFault fields.old.bytes.now 0) }
{
    let name = fields.take(4)?;
    if same_bytes(name, &FIRST_NAME) {
        return Some(Layout::First);
    }
    if same_bytes(name, &SECOND_NAME) {
        return Some(Layout::Second);
    }
    None
}

/// What an image of the layout tells behind its form's byte.
fn read_needs(fields: &mut Fields<'_>, layout: Layout) -> Option<Option<u32>>
    ensures name { IfSome result (λ needs. layout_name layout ≡ image_name needs) }
    ensures some { IfSome result (λ needs. Passes fields.old fields.new (needs_bytes needs) × FitsNeeds needs) }
    ensures none { IfNone result ((layout ≡ Second) × (length (left_of fields.old) < 4)) }
{
    match layout {
        Layout::First => Some(None),
        Layout::Second => match fields.number() {
            Some(count) => Some(Some(count)),
            None => None,
        },
    }
}

/// What stands before the entries, or the offset of what is not whole or not allowed.
pub(crate) fn read_head(fields: &mut Fields<'_>) -> Result<Head, usize>
    requires { fields.old.at ≡ 0 }
    ensures ok { IfOk result (λ head. Passes fields.old fields.new (head_bytes head.needs head.form head.count)) }
    ensures needs { IfOk result (λ head. FitsNeeds head.needs) }
    ensures count { IfOk result (λ head. head.count < 2 ^ 32) }
    ensures err { IfErr result (λ at. IsImageFault fields.old.bytes.now at) }
{
    let Some(layout) = read_name(fields) else {
        return Err(0);
    };
    let Some(form) = fields.form() else {
        return Err(4);
    };
    let Some(needs) = read_needs(fields, layout) else {
        return Err(5);
    };
    let at = fields.place();
    let Some(count) = fields.number() else {
        return Err(at);
    };
    Ok(Head { needs, form, count })
}

/// The head of bytes that are an image, or the fault place of bytes that are none.
pub(crate) fn shape_of(bytes: &[u8]) -> Result<Head, usize>
    ensures ok { IfOk result (λ head. HasShape bytes.now head.needs head.form head.count) }
    ensures err { IfErr result (λ at. IsImageFault bytes.now at) }
{
    let mut fields = Fields::new(bytes);
    let head = read_head(&mut fields)?;
    for _number in 0..head.count {
        match fields.spelled(head.needs) {
            Ok(_told) => {}
            Err(at) => return Err(at),
        }
    }
    if fields.left() > 0 {
        return Err(fields.place());
    }
    Ok(head)
}

/// Puts what stands before the entries in the second layout to the front of the room.
fn put_head(room: &mut [u8], needs: u32, form: Form, count: u32) -> usize
    requires { 13 ≤ length room.old }
    ensures { IsWritten room.old room.new 0 result (head_bytes (Some needs) form count) }
{
    let named = put_bytes(room, 0, &SECOND_NAME);
    let formed = put_bytes(room, named, &[form.byte()]);
    let needed = put_number(room, formed, needs);
    put_number(room, needed, count)
}

/// Puts the image of the second layout of a form and entries into room of its length.
fn put_image_of(room: &mut [u8], needs: u32, form: Form, entries: &Entries)
    requires count { length entries.now ≤ 65536 }
    requires fits { All FitsFields entries.now }
    requires room { length room.old ≡ length (image_bytes (record { needs = Some needs; form = form; entries = entries.now })) }
    ensures { room.new ≡ image_bytes (record { needs = Some needs; form = form; entries = entries.now }) }
{
    let mut at = put_head(room, needs, form, entries.len() as u32);
    for index in 0..entries.len() {
        let (string, key) = entries.get(index).unwrap();
        at = put_marked(room, at, string.as_bytes(), key.as_bytes());
    }
}

/// How many bytes entries have in the second layout.
fn entries_length(entries: &Entries) -> usize
    requires count { length entries.now ≤ 65536 }
    requires fits { All FitsFields entries.now }
    ensures length { result ≡ length (entries_bytes (Some 0) entries.now) }
    ensures bound { result < 2 ^ 60 }
{
    let mut length = 0;
    for index in 0..entries.len() {
        let (text, key) = entries.get(index).unwrap();
        length += marked_length(text.as_bytes(), key.as_bytes());
    }
    length
}

impl<'t, T: NormTable> Node<'t, T> {
    ghost use Rattle.np_node.specs.Laws.{image_of as image_told};
    ghost use Rattle.np_node.specs.Nodes.{state_of};

    /// The image of the form and the entries, which `restore` reads: it is of the second layout,
    /// and tells how many code points the table's version assigns. A key that is its string
    /// isn't repeated. Linear in the image's length.
    ///
    /// # Errors
    ///
    /// `Memory` where memory ran out.
    pub fn image(&self) -> Result<Vec<u8>, Memory>
        ensures { IfOk result (λ bytes. bytes.items ≡ image_bytes (image_told (Some (assigned_count (T.model self.now.table))) (state_of T.model self.now))) }
    {
        let mut bytes = Vec::from_elem(self.kept.allocator(), 0u8, self.image_length())?;
        self.put_image(bytes.as_mut_slice());
        Ok(bytes)
    }

    /// How many bytes the image has. It takes the time of a comparison of each key with its string, and no
    /// memory.
    pub fn image_length(&self) -> usize
        ensures { result ≡ length (image_bytes (image_told (Some (assigned_count (T.model self.now.table))) (state_of T.model self.now))) }
    {
        13 + entries_length(&self.kept)
    }

    /// Spells the image into room of its length. It takes no memory.
    pub fn put_image(&self, room: &mut [u8])
        requires { length room.old ≡ length (image_bytes (image_told (Some (assigned_count (T.model self.now.table))) (state_of T.model self.now))) }
        ensures { room.new ≡ image_bytes (image_told (Some (assigned_count (T.model self.now.table))) (state_of T.model self.now)) }
    {
        put_image_of(room, self.table.version().count(), self.form, &self.kept);
    }
}
