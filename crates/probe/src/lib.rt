// C calls over the ported functions that no call of the editor reaches by itself, and over settling round by round, for the differential bench. Not for
// the editor.
#![tactic(auto)]

mod numbers;

ghost use Rattle.std.specs.Prelude.{◌≡◌, ℤ};
ghost use Rattle.places.specs.Places.{cell, opposite, horizontal_offset};
ghost use Rattle.places.specs.Places.{offset as moved};
ghost use Rattle.world.specs.Find.{find, kind_at};
ghost use Rattle.traits.specs.Traits.{traits};
ghost use Rattle.names.specs.Names.{shape_of_name};
ghost use Rattle.refusals.specs.Check.{check_input, answer_of};
ghost use Rattle.supports.specs.Supports.{Listed};
ghost use Rattle.arms.specs.Arms.{component_connects, infer_wire_connection, resolved_wire_connection};
ghost use Rattle.wire.specs.Transfer.{dust_transfer, transfer_number};
ghost use Rattle.redraw.specs.Redraw.{Redraws};
ghost use Rattle.electrical.specs.Answer.{Settles};
ghost use Rattle.probe.specs.Numbers.{row_number, kind_properties, traits_number, coordinate, place_coordinate, known_facing, is_there, port_of, bit};

use places::Pos;

// 0, or the refusal that falls on a profile and a table.
pub fn probe_check(profile: &[u8], table: &[u8]) -> u32
    ensures { result ≡ answer_of (check_input profile.now table.now) 0 }
{
    match refusals::check_input(profile, table) {
        Ok(()) => 0,
        Err(refused) => refused.answer(),
    }
}

pub fn probe_find(table: &[u8], x: i32, y: i32, z: i32) -> u64
    ensures { result ≡ row_number (find table.now (cell x y z)) }
{
    numbers::row_number(reader::get(table, Pos::new(x, y, z)))
}

pub fn probe_kind_at(table: &[u8], x: i32, y: i32, z: i32) -> u32
    ensures { result ≡ kind_at table.now (cell x y z) }
{
    u32::from(reader::kind_at(table, Pos::new(x, y, z)))
}

pub fn probe_properties(profile: &[u8], kind: u32) -> u32
    ensures { result ≡ kind_properties profile.now kind }
{
    if 255 < kind {
        return 0;
    }
    numbers::properties_number(blocks::properties(profile, kind as u8))
}

pub fn probe_traits(profile: &[u8], table: &[u8], row: u64) -> u32
    ensures { result ≡ traits_number (traits profile.now table.now row) }
{
    numbers::traits_number(traits::redstone_traits(profile, table, row as usize))
}

pub fn probe_shape_of_name(name: &[u8], slab_type: &[u8], half: &[u8]) -> u32
    ensures { result ≡ shape_of_name name.now slab_type.now half.now }
{
    u32::from(names::shape_of_name(name, slab_type, half))
}

pub fn probe_support_issues(profile: &[u8], table: &[u8], column: &mut [u16]) -> u32
    ensures { Listed profile.now table.now column.old column.new result }
{
    supports::support_issues(profile, table, column)
}

pub fn probe_offset(x: i32, y: i32, z: i32, dx: i32, dy: i32, dz: i32, axis: u32) -> i32
    ensures { result ≡ coordinate (moved (cell x y z) dx dy dz) axis }
{
    numbers::coordinate(Pos::new(x, y, z).offset(dx, dy, dz), axis)
}

pub fn probe_opposite(facing: u32) -> u32
    ensures { result ≡ opposite (known_facing facing) }
{
    u32::from(numbers::facing_of(facing).opposite().code)
}

pub fn probe_horizontal_offset(facing: u32, axis: u32) -> i32
    ensures { result ≡ place_coordinate (horizontal_offset (known_facing facing)) axis }
{
    numbers::place_coordinate(numbers::facing_of(facing).horizontal_offset(), axis)
}

// 1 if there is such a position, else 0: 0 repeater input, 1 repeater output, 2 comparator input, 3 comparator output, 4 and 5 the sides.
pub fn probe_port(table: &[u8], x: i32, y: i32, z: i32, which: u32) -> u32
    ensures { result ≡ is_there (port_of table.now (cell x y z) which) }
{
    numbers::is_there(numbers::port_of(table, Pos::new(x, y, z), which))
}

pub fn probe_port_coordinate(table: &[u8], x: i32, y: i32, z: i32, which: u32, axis: u32) -> i32
    ensures { result ≡ place_coordinate (port_of table.now (cell x y z) which) axis }
{
    numbers::place_coordinate(numbers::port_of(table, Pos::new(x, y, z), which), axis)
}

pub fn probe_component_connects(table: &[u8], x: i32, y: i32, z: i32, facing: u32) -> u32
    ensures { result ≡ bit (component_connects table.now (cell x y z) (known_facing facing)) 1 }
{
    let code = numbers::facing_of(facing).code;
    numbers::bit(arms::component_connects(table, Pos::new(x, y, z), code), 1)
}

pub fn probe_infer(profile: &[u8], table: &[u8], x: i32, y: i32, z: i32, facing: u32) -> u32
    ensures { result ≡ infer_wire_connection profile.now table.now (cell x y z) (known_facing facing) }
{
    let code = numbers::facing_of(facing).code;
    u32::from(arms::infer_wire_connection(profile, table, Pos::new(x, y, z), code))
}

pub fn probe_resolved(profile: &[u8], table: &[u8], x: i32, y: i32, z: i32, facing: u32) -> u32
    ensures { result ≡ resolved_wire_connection profile.now table.now (cell x y z) (known_facing facing) }
{
    let code = numbers::facing_of(facing).code;
    u32::from(arms::resolved_wire_connection(profile, table, Pos::new(x, y, z), code))
}

pub fn probe_transfer(
    profile: &[u8],
    table: &[u8],
    x: i32,
    y: i32,
    z: i32,
    x2: i32,
    y2: i32,
    z2: i32,
) -> u32
    ensures { result ≡ transfer_number (dust_transfer profile.now table.now (cell x y z) (cell x2 y2 z2)) }
{
    numbers::transfer_number(wire::transfer::dust_transfer(
        profile,
        table,
        Pos::new(x, y, z),
        Pos::new(x2, y2, z2),
    ))
}

pub fn probe_redraw(profile: &[u8], table: &mut [u8]) -> u32
    ensures { Redraws profile.now table.old table.new result }
{
    redraw::update_wire_shapes(profile, table)
}

// Settle, round by round.
pub fn probe_settle_by_rounds(
    profile: &[u8],
    table: &[u8],
    devices: &[u8],
    limit: u32,
    signal: &mut [u8],
    weak: &mut [u8],
    strong: &mut [u8],
) -> u32
    ensures { Settles profile.now table.now devices.now limit signal.old weak.old strong.old signal.new weak.new strong.new result }
{
    solver::solve_by_rounds(profile, table, devices, limit, signal, weak, strong)
}
