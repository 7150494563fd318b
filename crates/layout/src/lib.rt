// A good profile, and a good row: each test of a row is one expression, with no branch.
#![tactic(auto)]

ghost use Rattle.std.specs.Prelude.{◌≡◌, ◌+◌, ◌*◌, ◌%◌, ◌<◌, leb, ℤ};
ghost use Rattle.layout.specs.Good.{most_of, low_bytes, good_profile, in_range, good_place, good_kind, good_value, good_support, good_arms, good_tail, good_row};

use blocks::{PROFILE_BYTES, PROFILE_BYTES_WITH_BULB, kind};
use columns::{all_indices, byte_at};
use places::Pos;

// The sum of all values of a kind; the torch has one value more.
const ALL: u8 = 31;

const ALL_OF_TORCH: u8 = 63;

// The most that the profile may have for a kind.
fn most_of(kind: usize) -> u8
    ensures { result ≡ most_of kind }
{
    if kind == kind::REDSTONE_TORCH as usize {
        ALL_OF_TORCH
    } else {
        ALL
    }
}

// Whether none of the first 14 bytes is above the most of its kind; past the end a byte is 0.
fn low_bytes(profile: &[u8]) -> bool
    ensures { result ≡ low_bytes profile.now }
{
    all_indices(
        PROFILE_BYTES_WITH_BULB,
        |k| byte_at(profile, k) <= most_of(k),
    )
}

// Whether a profile has 13 or 14 bytes, 0 for Air and none above the most of its kind.
pub fn good_profile(profile: &[u8]) -> bool
    ensures { result ≡ good_profile profile.now }
{
    ((profile.len() == PROFILE_BYTES) | (profile.len() == PROFILE_BYTES_WITH_BULB))
        & ((byte_at(profile, 0) == 0) & low_bytes(profile))
}

fn in_range(c: i32) -> bool
    ensures { result ≡ in_range c }
{
    (-1000000 <= c) & (c <= 1000000)
}

// Whether every coordinate of a position is in range.
pub fn good_place(q: Pos) -> bool
    ensures { result ≡ good_place q }
{
    in_range(q.x) & in_range(q.y) & in_range(q.z)
}

fn good_kind(row: &[u8; 32]) -> bool
    ensures { result ≡ good_kind row.now 0 }
{
    (1 <= row[12]) & (row[12] <= kind::COPPER_BULB) & (row[13] <= 6) & (row[14] <= 2)
}

// Whether byte b says that a value is given in the next one, or that none is, and the next one is 0.
fn good_value(row: &[u8; 32], b: usize) -> bool
    requires { b < 31 }
    ensures { result ≡ good_value row.now 0 b }
{
    ((row[b] == 0) & (row[b + 1] == 0)) | (row[b] == 1)
}

// Whether a byte of the support's offset is 0 where none is given, and -1, 0 or 1 where one is: where `given` is 0 or 1, one test for both.
fn is_offset(given: u8, d: u8) -> bool
    ensures { result ≡ leb ((d + given) % 256) (2 * given) }
{
    u32::from(d.wrapping_add(given)) <= 2 * u32::from(given)
}

fn good_support(row: &[u8; 32]) -> bool
    ensures { result ≡ good_support row.now 0 }
{
    let given = row[19];
    (given <= 1)
        & (is_offset(given, row[20]) & is_offset(given, row[21]) & is_offset(given, row[22]))
}

fn good_arms(row: &[u8; 32]) -> bool
    ensures { result ≡ good_arms row.now 0 }
{
    ((row[23] == 0) & ((row[24] == 0) & (row[25] == 0) & (row[26] == 0) & (row[27] == 0)))
        | ((row[23] == 1) & ((row[24] <= 3) & (row[25] <= 3) & (row[26] <= 3) & (row[27] <= 3)))
}

fn good_tail(row: &[u8; 32]) -> bool
    ensures { result ≡ good_tail row.now 0 }
{
    (row[28] <= 6) & (row[29] <= 1) & (row[30] == 0) & (row[31] == 0)
}

// Whether each field of a row, which is lent by itself, is within the layout.
pub fn good_row(row: &[u8; 32]) -> bool
    ensures { result ≡ good_row row.now 0 }
{
    good_place(world::row::pos_in(row))
        & good_kind(row)
        & good_value(row, 15)
        & good_value(row, 17)
        & good_support(row)
        & good_arms(row)
        & good_tail(row)
}
