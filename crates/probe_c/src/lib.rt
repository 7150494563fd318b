// The probe's calls, exported to C: each is the call of the crate `probe` of the same name, and promises the same. Not for the editor.
#![tactic(auto)]

ghost use Rattle.std.specs.Prelude.{◌≡◌, ℤ};
ghost use Rattle.places.specs.Places.{cell, opposite, horizontal_offset};
ghost use Rattle.places.specs.Places.{offset as moved};
ghost use Rattle.world.specs.Find.{find, kind_at};
ghost use Rattle.traits.specs.Traits.{traits};
ghost use Rattle.names.specs.Names.{shape_of_name};
ghost use Rattle.refusals.specs.Check.{check_input, answer_of};
ghost use Rattle.supports.specs.Supports.{Listed};
ghost use Rattle.arms.specs.Arms.{component_connects, infer_wire_connection, resolved_wire_connection};
ghost use Rattle.wire.specs.Transfer.{dust_transfer, transfer_number};
ghost use Rattle.redraw.specs.Redraw.{Redraws};
ghost use Rattle.electrical.specs.Answer.{Settles};
ghost use Rattle.probe.specs.Numbers.{row_number, kind_properties, traits_number, coordinate, place_coordinate, known_facing, is_there, port_of, bit};

// 0, or the refusal that falls on a profile and a table.
#[unsafe(no_mangle)]
pub extern "C" fn probe_check(profile: &[u8], table: &[u8]) -> u32
    ensures { result ≡ answer_of (check_input profile.now table.now) 0 }
{
    probe::probe_check(profile, table)
}

#[unsafe(no_mangle)]
pub extern "C" fn probe_find(table: &[u8], x: i32, y: i32, z: i32) -> u64
    ensures { result ≡ row_number (find table.now (cell x y z)) }
{
    probe::probe_find(table, x, y, z)
}

#[unsafe(no_mangle)]
pub extern "C" fn probe_kind_at(table: &[u8], x: i32, y: i32, z: i32) -> u32
    ensures { result ≡ kind_at table.now (cell x y z) }
{
    probe::probe_kind_at(table, x, y, z)
}

#[unsafe(no_mangle)]
pub extern "C" fn probe_properties(profile: &[u8], kind: u32) -> u32
    ensures { result ≡ kind_properties profile.now kind }
{
    probe::probe_properties(profile, kind)
}

#[unsafe(no_mangle)]
pub extern "C" fn probe_traits(profile: &[u8], table: &[u8], row: u64) -> u32
    ensures { result ≡ traits_number (traits profile.now table.now row) }
{
    probe::probe_traits(profile, table, row)
}

#[unsafe(no_mangle)]
pub extern "C" fn probe_shape_of_name(name: &[u8], slab_type: &[u8], half: &[u8]) -> u32
    ensures { result ≡ shape_of_name name.now slab_type.now half.now }
{
    probe::probe_shape_of_name(name, slab_type, half)
}

#[unsafe(no_mangle)]
pub extern "C" fn probe_support_issues(profile: &[u8], table: &[u8], column: &mut [u16]) -> u32
    ensures { Listed profile.now table.now column.old column.new result }
{
    probe::probe_support_issues(profile, table, column)
}

#[unsafe(no_mangle)]
pub extern "C" fn probe_offset(x: i32, y: i32, z: i32, dx: i32, dy: i32, dz: i32, axis: u32) -> i32
    ensures { result ≡ coordinate (moved (cell x y z) dx dy dz) axis }
{
    probe::probe_offset(x, y, z, dx, dy, dz, axis)
}

#[unsafe(no_mangle)]
pub extern "C" fn probe_opposite(facing: u32) -> u32
    ensures { result ≡ opposite (known_facing facing) }
{
    probe::probe_opposite(facing)
}

#[unsafe(no_mangle)]
pub extern "C" fn probe_horizontal_offset(facing: u32, axis: u32) -> i32
    ensures { result ≡ place_coordinate (horizontal_offset (known_facing facing)) axis }
{
    probe::probe_horizontal_offset(facing, axis)
}

// 1 if there is such a position, else 0: 0 repeater input, 1 repeater output, 2 comparator input, 3 comparator output, 4 and 5 the sides.
#[unsafe(no_mangle)]
pub extern "C" fn probe_port(table: &[u8], x: i32, y: i32, z: i32, which: u32) -> u32
    ensures { result ≡ is_there (port_of table.now (cell x y z) which) }
{
    probe::probe_port(table, x, y, z, which)
}

#[unsafe(no_mangle)]
pub extern "C" fn probe_port_coordinate(
    table: &[u8],
    x: i32,
    y: i32,
    z: i32,
    which: u32,
    axis: u32,
) -> i32
    ensures { result ≡ place_coordinate (port_of table.now (cell x y z) which) axis }
{
    probe::probe_port_coordinate(table, x, y, z, which, axis)
}

#[unsafe(no_mangle)]
pub extern "C" fn probe_component_connects(table: &[u8], x: i32, y: i32, z: i32, facing: u32) -> u32
    ensures { result ≡ bit (component_connects table.now (cell x y z) (known_facing facing)) 1 }
{
    probe::probe_component_connects(table, x, y, z, facing)
}

#[unsafe(no_mangle)]
pub extern "C" fn probe_infer(
    profile: &[u8],
    table: &[u8],
    x: i32,
    y: i32,
    z: i32,
    facing: u32,
) -> u32
    ensures { result ≡ infer_wire_connection profile.now table.now (cell x y z) (known_facing facing) }
{
    probe::probe_infer(profile, table, x, y, z, facing)
}

#[unsafe(no_mangle)]
pub extern "C" fn probe_resolved(
    profile: &[u8],
    table: &[u8],
    x: i32,
    y: i32,
    z: i32,
    facing: u32,
) -> u32
    ensures { result ≡ resolved_wire_connection profile.now table.now (cell x y z) (known_facing facing) }
{
    probe::probe_resolved(profile, table, x, y, z, facing)
}

#[unsafe(no_mangle)]
pub extern "C" fn probe_transfer(
    profile: &[u8],
    table: &[u8],
    x: i32,
    y: i32,
    z: i32,
    x2: i32,
    y2: i32,
    z2: i32,
) -> u32
    ensures { result ≡ transfer_number (dust_transfer profile.now table.now (cell x y z) (cell x2 y2 z2)) }
{
    probe::probe_transfer(profile, table, x, y, z, x2, y2, z2)
}

#[unsafe(no_mangle)]
pub extern "C" fn probe_redraw(profile: &[u8], table: &mut [u8]) -> u32
    ensures { Redraws profile.now table.old table.new result }
{
    probe::probe_redraw(profile, table)
}

// Settle, round by round.
#[unsafe(no_mangle)]
pub extern "C" fn probe_settle_by_rounds(
    profile: &[u8],
    table: &[u8],
    devices: &[u8],
    limit: u32,
    signal: &mut [u8],
    weak: &mut [u8],
    strong: &mut [u8],
) -> u32
    ensures { Settles profile.now table.now devices.now limit signal.old weak.old strong.old signal.new weak.new strong.new result }
{
    probe::probe_settle_by_rounds(profile, table, devices, limit, signal, weak, strong)
}
