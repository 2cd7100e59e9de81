//! Texts that are made into their caseless keys where they stand, each code point by what stands for it in as many bytes.
//!
//! All of ASCII is made lowercase at once before that, and what doesn't change is there already. So only the bytes are looked at
//! that begin characters of several bytes; which these are is told of 64 bytes at once, without a branch for each.
ghost use Rattle.std.specs.Prelude.{◌≡◌, ◌≢◌, ◌++◌, ◌+◌, ◌<◌, ◌≤◌, ℕ, Bool, List, drop, encode_utf8, get_or, length, take, true, IfNone, IfSome, IsUtf8};
ghost use Rattle.np_caseless.specs.inside.SimpleImages.{IsCodeAt, LowerAscii, bytes_of, listed};
ghost use Rattle.np_caseless.specs.inside.SimpleTexts.{AreMade};

use crate::characters::{Character, char_at, three_at, two_at};
use crate::leads::{LANES, leads_from, lowest, without_lowest};
use crate::marks::is_marked_code;
use crate::simple_images::SimpleImage;

/// The images that are known.
#[derive(Clone, Copy)]
pub(crate) struct KnownImages<'t> {
    /// Those that stand for their code points whatever is around them, at the places of these.
    pub(crate) simple: &'t [SimpleImage],
    /// By code point, 1 where it is its own image.
    pub(crate) own: &'t [u8],
    /// Whether each character of ASCII has its lowercase among the first.
    pub(crate) lowers: bool,
}

/// What was made of the front of a text.
#[derive(Clone, Copy)]
pub(crate) struct MadeFront {
    /// How many bytes that front has, and what was made of it.
    pub(crate) count: usize,
    /// Whether what was made is its own form, and assigned. Else that is to be asked.
    pub(crate) apart: bool,
}

/// Writes the bytes of an image to where a character of as many stands.
#[inline(always)]
fn put_image(image: SimpleImage, here: Character, room: &mut [u8])
    requires some { 0 < here.count }
    requires few { here.count ≤ 3 }
    requires room { here.at + here.count ≤ length room.now }
    ensures length { length room.new ≡ length room.old }
    ensures written { take (here.at + here.count) room.new ≡ take here.at room.old ++ bytes_of here.count image }
    ensures behind { drop (here.at + here.count) room.new ≡ drop (here.at + here.count) room.old }
{
    room[here.at] = (image.bytes % 256) as u8;
    if here.count > 1 {
        room[here.at + 1] = (image.bytes / 256 % 256) as u8;
    }
    if here.count > 2 {
        room[here.at + 2] = (image.bytes / 65536 % 256) as u8;
    }
}

/// The simple image of a character of several bytes, where it is known.
#[inline(always)]
fn image_at(simple: &[SimpleImage], here: Character) -> Option<SimpleImage>
    requires size { length simple.now ≡ 0x3000 }
    requires within { here.count ≤ 2 → here.code < 0x3000 }
    ensures { IfSome result (λ image. (here.code < length simple.now) × (image ≡ listed simple.now here.code) × (image.bytes ≢ 0)) }
{
    if here.count > 2 && here.code >= simple.len() {
        return None;
    }
    let image = simple[here.code];
    if image.bytes == 0 { None } else { Some(image) }
}

/// Whether a code point most likely composes with what stands before it: a combining diacritical mark, a conjoining jamo, or a
/// sound mark of kana. A text of these isn't its own form, so what was made behind one would be made in vain.
#[inline(always)]
fn may_compose(code: usize) -> bool {
    code < 0x309B
        && ((0x300..0x370).contains(&code) || (0x1100..0x1200).contains(&code) || code >= 0x3099)
}

/// Goes on with what stands for a character of several bytes, written to where it stands: its image, or itself, which stands there
/// already. None where nothing is known of it, or it most likely composes.
#[inline(always)]
fn make(known: KnownImages<'_>, here: Character, apart: bool, room: &mut [u8]) -> Option<MadeFront>
    requires size { length known.simple.now ≡ 0x3000 }
    requires within { here.count ≤ 2 → here.code < 0x3000 }
    requires several { 1 < here.count }
    requires encoded { length (encode_utf8 here.code) ≡ here.count }
    requires room { here.at + here.count ≤ length room.now }
    ensures count { IfSome result (λ made. made.count ≡ here.at + here.count) }
    ensures made { IfSome result (λ made. (text : List ℕ) → IsCodeAt text here.at here.count here.code
        → AreMade known.entry text room.old here.at apart → AreMade known.entry text room.new made.count made.apart) }
    ensures kept { IfNone result (room.new ≡ room.old) }
{
    let count = here.at + here.count;
    if let Some(image) = image_at(known.simple, here) {
        put_image(image, here, room);
        return Some(MadeFront { count, apart });
    }
    if may_compose(here.code) {
        return None;
    }
    if !is_marked_code(known.own, here.code) {
        return None;
    }
    Some(MadeFront {
        count,
        apart: false,
    })
}

/// Goes on with what stands for the character behind a front, one of several bytes. None where nothing is known of it.
#[inline(always)]
fn make_at(
    known: KnownImages<'_>,
    text: &str,
    front: MadeFront,
    room: &mut [u8],
) -> Option<MadeFront>
    requires size { length known.simple.now ≡ 0x3000 }
    requires place { front.count < length text.now }
    requires lead_byte { 192 ≤ get_or text.now front.count 0 }
    requires utf8 { IsUtf8 (drop front.count text.now) }
    requires room { length room.now ≡ length text.now }
    ensures later { IfSome result (λ made. front.count < made.count) }
    ensures inside { IfSome result (λ made. (j : ℕ) → front.count < j → j < made.count → get_or text.now j 0 < 192) }
    ensures made { IfSome result (λ made. AreMade known.entry text.now room.old front.count front.apart
        → AreMade known.entry text.now room.new made.count made.apart) }
    ensures kept { IfNone result (room.new ≡ room.old) }
{
    let bytes = text.as_bytes();
    let lead_byte = bytes[front.count];
    if lead_byte / 32 == 6 {
        make(known, two_at(bytes, front.count), front.apart, room)
    } else if lead_byte / 16 == 14 {
        make(known, three_at(bytes, front.count), front.apart, room)
    } else {
        make(known, char_at(text, front.count)?, front.apart, room)
    }
}

/// Goes on with what stands for the code points of a text by those that begin in the next 64 bytes, as far as they are known.
#[inline(always)]
fn make_next(known: KnownImages<'_>, text: &str, front: MadeFront, room: &mut [u8]) -> MadeFront
    requires size { length known.simple.now ≡ 0x3000 }
    requires lowers { LowerAscii known.simple.now }
    requires made { AreMade known text.now room.now front.count front.apart }
    ensures made { AreMade known.entry text.now room.new result.count result.apart }
    ensures later { front.count ≤ result.count }
{
    let bytes = text.as_bytes();
    let mut made = front;
    let mut left = leads_from(bytes, front.count);
    'leads: while left != 0 {
        let here = MadeFront {
            count: front.count + lowest(left),
            apart: made.apart,
        };
        let Some(next) = make_at(known, text, here, room) else {
            return here;
        };
        left = without_lowest(left);
        made = next;
    }
    MadeFront {
        count: bytes.len().min(made.count.max(front.count + LANES)),
        apart: made.apart,
    }
}

/// Writes what stands for the code points at the front of a text to where they stand, up to the first of which nothing is known.
pub(crate) fn make_front(known: KnownImages<'_>, text: &str, room: &mut [u8]) -> MadeFront
    requires size { length known.simple.now ≡ 0x3000 }
    requires lowers { LowerAscii known.simple.now }
    requires made { AreMade known text.now room.now 0 true }
    ensures made { AreMade known.entry text.now room.new result.count result.apart }
{
    let mut front = MadeFront {
        count: 0,
        apart: true,
    };
    'blocks: while front.count < text.len() {
        let next = make_next(known, text, front, room);
        if next.count < text.len() && next.count < front.count + LANES {
            return next;
        }
        front = next;
    }
    front
}
