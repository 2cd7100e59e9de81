//! Lines whose caseless keys are told code point by code point, and have as many bytes as they have. The keys of all parts of a
//! front are written at once; then each line is cut off the front, and its key stands at its own place.
ghost use Rattle.std.specs.Prelude.{◌≡◌, ◌++◌, ◌∷◌, [], ◌≤◌, length, IfOk, IsUtf8, OnOk};
ghost use Rattle.np_caseless.specs.Folded.{FoldedVersion};
ghost use Rattle.np_caseless.specs.SimpleKeys.{IsEachPartKey};
ghost use Rattle.np_caseless_lines.specs.inside.Answered.{AreAnswered};
ghost use Rattle.np_code_points.specs.declared.forms.Form.{Form};
ghost use Rattle.np_lines.specs.Answers.{told_key};
ghost use Rattle.np_lines.specs.Lines.{byte_of};

use np_caseless::FoldedTable;
use np_code_points::Memory;
use np_lines::{LineEnd, Wanted, cut_line};
use np_versions::NormTable;

/// How many bytes of a text are looked at at once at first, at most.
const FIRST: usize = 250;

/// How many in the end, at most.
const LAST: usize = 1000;

/// What is known of a window of a text once its lines were answered.
#[derive(Clone, Copy)]
struct AnsweredWindow<'a> {
    /// What is left of it.
    left: &'a str,
    /// Whether all of its keys were made. If so, only the end of its last line is missing.
    is_made: bool,
}

/// Appends `=`, a key and what ends its line.
#[inline(always)]
fn push_key(key: &[u8], end: LineEnd, out: &mut Vec<u8>) -> Result<(), Memory>
    ensures { OnOk result (out.new.items ≡ out.old.items ++ (told_key key.now ++ byte_of end ∷ [])) }
{
    out.push(b'=')?;
    out.extend_from_slice(key)?;
    out.push(end.byte())?;
    Ok(())
}

/// Appends the answers to the lines that end in the front of a text, of which each part has its key at its place, and answers
/// what follows them there.
fn push_each<'a>(
    end: LineEnd,
    front: &'a str,
    keys: &[u8],
    out: &mut Vec<u8>,
) -> Result<&'a str, Memory>
    requires short { length front.now ≤ 1000 }
    requires keys { length front.now ≤ length keys.now }
    ensures pushed { IfOk result (λ rest. (v : FoldedVersion) (form : Form) → IsEachPartKey v form front.now keys.now →
        AreAnswered v form end front.now rest.now out.old.items out.new.items) }
    ensures utf8 { IfOk result (λ rest. IsUtf8 rest.now) }
{
    let mut rest = front;
    'lines: loop {
        let Some((line, behind)) = cut_line(rest, end) else {
            return Ok(rest);
        };
        let place = front.len() - rest.len();
        push_key(&keys[place..place + line.len()], end, out)?;
        rest = behind;
    }
}

/// Appends the answers to the lines at the front of a window of a text whose keys are made so, for which the room serves.
fn push_window<'a, T: NormTable + Drop>(
    folded: &FoldedTable<T>,
    wanted: Wanted,
    window: &'a str,
    room: &mut [u8],
    out: &mut Vec<u8>,
) -> Result<AnsweredWindow<'a>, Memory>
    requires short { length window.now ≤ 1000 }
    requires room { length window.now ≡ length room.now }
    ensures length { length room.new ≡ length room.old }
    ensures pushed { IfOk result (λ w. AreAnswered folded.now wanted.form wanted.end window.now w.left.now out.old.items out.new.items) }
    ensures utf8 { IfOk result (λ w. IsUtf8 w.left.now) }
{
    let count = folded.write_keys(wanted.form, window, room);
    let (front, _behind) = window.split_at(count);
    let left = push_each(wanted.end, front, room, out)?;
    Ok(AnsweredWindow {
        left: &window[front.len() - left.len()..],
        is_made: count == window.len(),
    })
}

/// Answers the lines at the front of a text whose keys are made so, and answers what is left of it: all from the first line that
/// isn't short or whose key isn't made. Little is looked at until a line was answered, and then ever more.
pub(crate) fn push_simple<'a, T: NormTable + Drop>(
    folded: &FoldedTable<T>,
    wanted: Wanted,
    text: &'a str,
    out: &mut Vec<u8>,
) -> Result<&'a str, Memory>
    ensures { IfOk result (λ rest. AreAnswered folded.now wanted.form wanted.end text.now rest.now out.old.items out.new.items) }
{
    let mut room = [0; LAST];
    let mut rest = text;
    let mut most = FIRST;
    'windows: loop {
        let (window, _behind) = rest.split_at(rest.floor_char_boundary(most));
        let size = window.len();
        let answered = push_window(folded, wanted, window, &mut room[..size], out)?;
        let done = size - answered.left.len();
        let is_cut = size < rest.len();
        rest = &rest[done..];
        let is_over = !answered.is_made || !is_cut || (done == 0 && most == LAST);
        if is_over {
            return Ok(rest);
        }
        most = if done > 0 { LAST.min(2 * most) } else { LAST };
    }
}
