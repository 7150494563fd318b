// Whether the proved functions of rows, traits, names and positions answer as the original did. Each function takes the parts of its operation's record.
#![tactic(auto)]

pub mod right;

ghost use Rattle.std.specs.Prelude.{◌≡◌, ◌<◌, ℤ};
ghost use Rattle.columns.specs.First.{all_below};
ghost use Rattle.world.specs.Rows.{rows};
ghost use Rattle.answers.specs.Answers.{trait_agrees, traits_agree, shape_agrees, find_agrees, property_agrees, properties_agree, offset_agrees};

use columns::{all_indices, byte_at};
use places::Pos;
use records::entry;

// Whether row i has the traits whose number is entry i.
fn trait_agrees(profile: &[u8], table: &[u8], want: &[u8], i: usize) -> bool
    ensures { result ≡ trait_agrees profile.now table.now want.now i }
{
    probe::probe_traits(profile, table, i as u64) == entry(want, i)
}

fn all_traits_agree(profile: &[u8], table: &[u8], want: &[u8]) -> bool
    ensures { result ≡ all_below (trait_agrees profile.now table.now want.now) (rows table.now) }
{
    all_indices(
        world::row::rows(table),
        |i| trait_agrees(profile, table, want, i),
    )
}

// The traits of every row, two bytes each.
pub fn traits_agree(profile: &[u8], table: &[u8], want: &[u8]) -> bool
    ensures { result ≡ traits_agree profile.now table.now want.now }
{
    (want.len() == world::row::rows(table) * 2) & all_traits_agree(profile, table, want)
}

pub fn shape_agrees(name: &[u8], slab_type: &[u8], half: &[u8], shape: u8) -> bool
    ensures { result ≡ shape_agrees name.now slab_type.now half.now shape }
{
    probe::probe_shape_of_name(name, slab_type, half) == u32::from(shape)
}

// The row at a position, and the kind there.
pub fn find_agrees(table: &[u8], q: Pos, row: u64, kind: u8) -> bool
    ensures { result ≡ find_agrees table.now q row kind }
{
    (probe::probe_find(table, q.x, q.y, q.z) == row)
        & (probe::probe_kind_at(table, q.x, q.y, q.z) == u32::from(kind))
}

// Whether a property has the number that stands at its kind.
fn property_agrees(profile: &[u8], want: &[u8], kind: usize) -> bool
    requires { kind < 14 }
    ensures { result ≡ property_agrees profile.now want.now kind }
{
    probe::probe_properties(profile, kind as u32) == u32::from(byte_at(want, kind))
}

// The properties of every kind, a byte each.
pub fn properties_agree(profile: &[u8], want: &[u8]) -> bool
    ensures { result ≡ properties_agree profile.now want.now }
{
    all_indices(14, |kind| property_agrees(profile, want, kind))
}

pub fn offset_agrees(q: Pos, d: Pos, want: Pos) -> bool
    ensures { result ≡ offset_agrees q d want }
{
    q.offset(d.x, d.y, d.z).same(want)
}
