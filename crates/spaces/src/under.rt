ghost use Rattle.std.specs.Prelude.{◌≡◌, Some, None};
ghost use Rattle.spaces.specs.Edits.{judged, EditsUnder};
ghost use Rattle.spaces.specs.Meant.{meant};

use crate::edit::Edit;
use crate::refusal::EditRefusal;
use crate::space::Space;

// How a space that is no overlay refuses an edit of its own.
pub fn no_overlay_here(edit: Edit<'_>) -> EditRefusal
    ensures { Some result ≡ judged None (meant edit.entry) }
{
    edit.within().err().unwrap_or(EditRefusal::NoOverlay)
}

// An edit at a depth of a layer that is no overlay: the space below is edited, one depth less, or the edit is refused.
pub fn edit_under<S: Space>(below: &mut S, depth: u8, edit: Edit<'_>) -> Result<(), EditRefusal>
    ensures { EditsUnder (S.Space.meaning below.old) (S.Space.meaning below.new) depth (meant edit.entry) result }
{
    match depth.checked_sub(1) {
        Some(depth) => below.edit(depth, edit),
        None => Err(no_overlay_here(edit)),
    }
}
