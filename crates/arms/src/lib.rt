// The arms of dust, stored or inferred: 1 None, 2 Side, 3 Up. A facing is its number in byte 13 of a row.
#![tactic(auto)]

ghost use Rattle.std.specs.Prelude.{◌≡◌};
ghost use Rattle.arms.specs.Arms.{connects, component_connects, joins, rises, drops, infer_past, infer_wire_connection, arm_of, has_arm, resolved_wire_connection, wire_has_arm};

use blocks::kind;
use blocks::kind::{is_diode, is_source};
use columns::Found;
use places::{Facing, Pos};
use traits::{ARM_NONE, ARM_SIDE, traits_at};
use world::find::{find, kind_at};
use world::row;

// Whether a row connects to dust along a facing: a repeater or comparator at both its ends, and never one without a facing.
fn connects(table: &[u8], row: usize, facing: u8) -> bool
    ensures { result ≡ connects table.now facing row }
{
    let kind = row::kind_of(table, row);
    let own = row::facing_of(table, row);
    let back = Facing { code: facing }.opposite();
    is_source(kind) | (is_diode(kind) & ((own != 0) & ((own == facing) | (own == back.code))))
}

pub fn component_connects(table: &[u8], pos: Pos, facing: u8) -> bool
    ensures { result ≡ component_connects table.now pos facing }
{
    let Found::At(i) = find(table, pos) else {
        return false;
    };
    connects(table, i, facing)
}

// Whether dust or a connecting component is in the cell beside.
fn joins(table: &[u8], side: Pos, facing: u8) -> bool
    ensures { result ≡ joins table.now side facing }
{
    if kind_at(table, side) == kind::REDSTONE_WIRE {
        return true;
    }
    component_connects(table, side, facing)
}

// Whether the block in the cell beside has a rise and dust on top, with no blocker above the position itself.
fn rises(profile: &[u8], table: &[u8], pos: Pos, side: Pos) -> bool
    ensures { result ≡ rises profile.now table.now pos side }
{
    if traits_at(profile, table, side).rise == ARM_NONE {
        return false;
    }
    (kind_at(table, side.above()) == kind::REDSTONE_WIRE)
        & !traits_at(profile, table, pos.above()).blocks
}

// Whether the cell beside is empty, with dust below it.
fn drops(table: &[u8], side: Pos) -> bool
    ensures { result ≡ drops table.now side }
{
    if kind_at(table, side) == kind::AIR {
        return kind_at(table, side.below()) == kind::REDSTONE_WIRE;
    }
    false
}

// The arm along a horizontal facing, past the cell beside.
fn infer_past(profile: &[u8], table: &[u8], pos: Pos, side: Pos, facing: u8) -> u8
    ensures { result ≡ infer_past profile.now table.now pos side facing }
{
    if joins(table, side, facing) {
        return ARM_SIDE;
    }
    if rises(profile, table, pos, side) {
        return traits_at(profile, table, side).rise;
    }
    if drops(table, side) {
        return ARM_SIDE;
    }
    ARM_NONE
}

// The arm that dust at a position would have. Along a facing that is not horizontal, where the original panics, there is none.
pub fn infer_wire_connection(profile: &[u8], table: &[u8], pos: Pos, facing: u8) -> u8
    ensures { result ≡ infer_wire_connection profile.now table.now pos facing }
{
    if facing < Facing::NORTH {
        return ARM_NONE;
    }
    if Facing::WEST < facing {
        return ARM_NONE;
    }
    infer_past(
        profile,
        table,
        pos,
        pos.beside(Facing { code: facing }),
        facing,
    )
}

// The arm of a row: the stored entry, or inferred where there is none. Only dust has arms.
pub fn arm_of(profile: &[u8], table: &[u8], row: usize, facing: u8) -> u8
    ensures { result ≡ arm_of profile.now table.now row facing }
{
    if row::kind_of(table, row) != kind::REDSTONE_WIRE {
        return ARM_NONE;
    }
    let stored = row::stored_arm(table, row, facing);
    if stored != 0 {
        return stored;
    }
    infer_wire_connection(profile, table, row::pos_of(table, row), facing)
}

pub fn has_arm(profile: &[u8], table: &[u8], row: usize, facing: u8) -> bool
    ensures { result ≡ has_arm profile.now table.now row facing }
{
    arm_of(profile, table, row, facing) != ARM_NONE
}

// The arm of what stands at a position.
pub fn resolved_wire_connection(profile: &[u8], table: &[u8], pos: Pos, facing: u8) -> u8
    ensures { result ≡ resolved_wire_connection profile.now table.now pos facing }
{
    let Found::At(i) = find(table, pos) else {
        return ARM_NONE;
    };
    arm_of(profile, table, i, facing)
}

pub fn wire_has_arm(profile: &[u8], table: &[u8], pos: Pos, facing: u8) -> bool
    ensures { result ≡ wire_has_arm profile.now table.now pos facing }
{
    resolved_wire_connection(profile, table, pos, facing) != ARM_NONE
}
