// Whether the answer of a record of operations 7 to 9 is right: the record is taken apart as its operation lays it out, and its parts are
// compared.
ghost use Rattle.std.specs.Prelude.{◌≡◌, ℤ};
ghost use Rattle.wire_answers.specs.Right.{arms_right, transfer_right, redraw_right};

use crate::{arms_agree, redraw_agrees, transfer_agrees};
use columns::byte_at;
use records::{after, has_parts, number, pos_at, slice_of};

pub fn arms_right(r: &[u8]) -> bool
    ensures { result ≡ arms_right r.now }
{
    let rest = after(r, 2);
    has_parts(r, 2, 15)
        & arms_agree(
            slice_of(r, 0),
            slice_of(r, 1),
            pos_at(rest, 0),
            byte_at(rest, 12),
            byte_at(rest, 13),
            byte_at(rest, 14),
        )
}

pub fn transfer_right(r: &[u8]) -> bool
    ensures { result ≡ transfer_right r.now }
{
    let rest = after(r, 2);
    has_parts(r, 2, 25)
        & transfer_agrees(
            slice_of(r, 0),
            slice_of(r, 1),
            pos_at(rest, 0),
            pos_at(rest, 12),
            byte_at(rest, 24),
        )
}

pub fn redraw_right(r: &[u8]) -> bool
    ensures { result ≡ redraw_right r.now }
{
    has_parts(r, 3, 4)
        & redraw_agrees(
            slice_of(r, 0),
            slice_of(r, 1),
            slice_of(r, 2),
            number(r, 3, 0),
        )
}
