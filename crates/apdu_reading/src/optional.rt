// Components that may be absent: nothing is read, and the value is 0.
ghost use Rattle.std.specs.Prelude.{[], ◌∷◌, ◌≤◌, length};
ghost use Rattle.apdu_format.specs.Component.{integer, string_form, id_count};
ghost use Rattle.apdu.specs.Values.{num_if, if, str, id_list};
ghost use Rattle.apdu_reading.specs.Cursor.{Inside};
ghost use Rattle.apdu_reading.specs.Optional.{Maybe, HeadMaybe, AttributesMaybe};

use crate::component::{id_list, integer, row_count, string};
use crate::container::{Head, container};
use crate::cursor::{Cursor, marked};

pub(crate) fn integer_if(s: &[u8], p: bool, c: Cursor) -> Cursor
    requires { length s.now ≤ 512 }
    ensures { Maybe s.now p (integer ∷ []) c result (num_if p result.value) }
{
    if p { integer(s, c) } else { marked(c, 0, 0) }
}

pub(crate) fn string_if(s: &[u8], p: bool, c: Cursor) -> Cursor
    requires { length s.now ≤ 512 }
    ensures { Maybe s.now p (string_form ∷ []) c result (if p (str s.now result.start result.value)) × Inside s.now p result }
{
    if p { string(s, c) } else { marked(c, 0, 0) }
}

pub(crate) fn id_list_if(s: &[u8], p: bool, c: Cursor) -> Cursor
    requires { length s.now ≤ 512 }
    ensures { Maybe s.now p (id_count ∷ []) c result (if p (id_list s.now result.start result.value)) × Inside s.now p result }
{
    if p { id_list(s, c) } else { marked(c, 0, 0) }
}

// A container at depth 1 up to its rows.
pub(crate) fn container_if(s: &[u8], p: bool, c: Cursor) -> Head
    requires { length s.now ≤ 512 }
    ensures { HeadMaybe s.now p c result }
{
    if p {
        container(s, 1, c)
    } else {
        Head {
            cursor: c,
            ..Head::default()
        }
    }
}

// The count of an attribute list, which is the value afterwards.
pub(crate) fn attributes_if(s: &[u8], p: bool, c: Cursor) -> Cursor
    requires { length s.now ≤ 512 }
    ensures { AttributesMaybe s.now p c result }
{
    if p {
        row_count(s, 1, c)
    } else {
        marked(c, 0, 0)
    }
}
