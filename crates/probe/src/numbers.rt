// Enums, structs and bools as numbers.
ghost use Rattle.std.specs.Prelude.{◌≡◌, ◌≤◌, ℤ};
ghost use Rattle.wire.specs.Transfer.{transfer_number};
ghost use Rattle.probe.specs.Numbers.{row_number, bit, properties_number, traits_number, coordinate, place_coordinate, known_facing, is_there, side_of, port_of};

use blocks::BlockProperties;
use columns::Found;
use places::{Facing, Pos};
use traits::BlockRedstoneTraits;
use wire::transfer::DustTransfer;

pub fn row_number(found: Found) -> u64
    ensures { result ≡ row_number found }
{
    match found {
        Found::At(i) => i as u64,
        Found::Nothing => 18446744073709551615,
    }
}

pub fn bit(b: bool, value: u32) -> u32
    ensures { (result ≡ bit b value) × (result ≤ value) }
{
    if b { value } else { 0 }
}

pub fn properties_number(r: BlockProperties) -> u32
    ensures { result ≡ properties_number r }
{
    bit(r.supports_components, 1)
        + bit(r.receives_weak_power, 2)
        + bit(r.receives_strong_power, 4)
        + bit(r.repeater_reads_block_power, 8)
        + bit(r.strong_power_drives_dust, 16)
}

pub fn traits_number(r: BlockRedstoneTraits) -> u32
    ensures { result ≡ traits_number r }
{
    bit(r.supports, 1)
        + bit(r.weak, 2)
        + bit(r.strong, 4)
        + bit(r.drives, 8)
        + bit(r.blocks, 16)
        + u32::from(r.rise) * 32
}

pub fn coordinate(q: Pos, axis: u32) -> i32
    ensures { result ≡ coordinate q axis }
{
    match axis {
        0 => q.x,
        1 => q.y,
        _ => q.z,
    }
}

pub fn place_coordinate(place: Option<Pos>, axis: u32) -> i32
    ensures { result ≡ place_coordinate place axis }
{
    match place {
        Some(q) => coordinate(q, axis),
        None => 2,
    }
}

// The facing of a number; a number above 6 is none.
pub fn facing_of(number: u32) -> Facing
    ensures { result.code ≡ known_facing number }
{
    if 6 < number {
        return Facing { code: 0 };
    }
    Facing { code: number as u8 }
}

pub fn is_there(place: Option<Pos>) -> u32
    ensures { result ≡ is_there place }
{
    u32::from(place.is_some())
}

// The first or the second of the sides.
fn side_of(sides: Option<(Pos, Pos)>, first: bool) -> Option<Pos>
    ensures { result ≡ side_of sides first }
{
    let Some((a, b)) = sides else {
        return None;
    };
    if first {
        return Some(a);
    }
    Some(b)
}

pub fn port_of(table: &[u8], pos: Pos, which: u32) -> Option<Pos>
    ensures { result ≡ port_of table.now pos which }
{
    match which {
        0 => connectivity::repeater_input_pos(table, pos),
        1 => connectivity::repeater_output_pos(table, pos),
        2 => connectivity::comparator_input_pos(table, pos),
        3 => connectivity::comparator_output_pos(table, pos),
        4 => side_of(connectivity::device_side_positions(table, pos), true),
        _ => side_of(connectivity::device_side_positions(table, pos), false),
    }
}

pub fn transfer_number(transfer: Option<DustTransfer>) -> u32
    ensures { result ≡ transfer_number transfer }
{
    match transfer {
        None => 0,
        Some(DustTransfer::Horizontal) => 1,
        Some(DustTransfer::Rise) => 2,
        Some(DustTransfer::FallThroughConductor) => 3,
    }
}
