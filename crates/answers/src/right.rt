// Whether the answer of a record of operations 1 to 3, 5 and 6 is right: the record is taken apart as its operation lays it out, and its parts are
// compared.
ghost use Rattle.std.specs.Prelude.{◌≡◌, ℤ};
ghost use Rattle.answers.specs.Right.{traits_right, shape_right, find_right, properties_right, offset_right};

use crate::{find_agrees, offset_agrees, properties_agree, shape_agrees, traits_agree};
use columns::byte_at;
use records::{after, has_parts, pos_at, slice_of};
use words::{from, long};

pub fn traits_right(r: &[u8]) -> bool
    ensures { result ≡ traits_right r.now }
{
    has_parts(r, 3, 0) & traits_agree(slice_of(r, 0), slice_of(r, 1), slice_of(r, 2))
}

pub fn shape_right(r: &[u8]) -> bool
    ensures { result ≡ shape_right r.now }
{
    let shape = byte_at(after(r, 3), 0);
    has_parts(r, 3, 1) & shape_agrees(slice_of(r, 0), slice_of(r, 1), slice_of(r, 2), shape)
}

pub fn find_right(r: &[u8]) -> bool
    ensures { result ≡ find_right r.now }
{
    let rest = after(r, 1);
    has_parts(r, 1, 21)
        & find_agrees(
            slice_of(r, 0),
            pos_at(rest, 0),
            long(from(rest, 12)),
            byte_at(rest, 20),
        )
}

pub fn properties_right(r: &[u8]) -> bool
    ensures { result ≡ properties_right r.now }
{
    has_parts(r, 1, 14) & properties_agree(slice_of(r, 0), after(r, 1))
}

pub fn offset_right(r: &[u8]) -> bool
    ensures { result ≡ offset_right r.now }
{
    let rest = after(r, 0);
    has_parts(r, 0, 36) & offset_agrees(pos_at(rest, 0), pos_at(rest, 12), pos_at(rest, 24))
}
