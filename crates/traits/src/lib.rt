// What a block does to redstone, by its kind's profile and its shape.
#![tactic(auto)]

pub mod shape;

ghost use Rattle.std.specs.Prelude.{◌≡◌};
ghost use Rattle.traits.specs.Traits.{nothing, plain_rise, plain, of_shape, traits, traits_at, rises_by, conducts};

use columns::Found;
use places::Pos;
use world::find::find;
use world::row;

// `BlockRedstoneTraits`, under document 01's words for its fields.
#[derive(Clone, Copy)]
pub struct BlockRedstoneTraits {
    // supports_dust_on_top
    pub supports: bool,
    // wire_rise_connection: 1 None, 2 Side, 3 Up
    pub rise: u8,
    // blocks_wire_rise_when_above
    pub blocks: bool,
    // conducts_weak_power
    pub weak: bool,
    // conducts_strong_power
    pub strong: bool,
    // strong_power_drives_dust
    pub drives: bool,
}

// The numbers of an arm, as a row stores it, and of a rise: `WireConnection`. In a table that is not accepted a stored arm may be any byte.
pub const ARM_NONE: u8 = 1;

pub const ARM_SIDE: u8 = 2;

pub const ARM_UP: u8 = 3;

impl BlockRedstoneTraits {
    // Whether the block has this rise.
    pub fn rises_by(self, arm: u8) -> bool
        ensures { result ≡ rises_by self arm }
    {
        (self.rise != ARM_NONE) & (self.rise == arm)
    }

    // Whether the block receives weak or strong power.
    pub fn conducts(self) -> bool
        ensures { result ≡ conducts self }
    {
        self.weak | self.strong
    }
}

// A rise of Up where components are supported.
fn plain_rise(supports: bool) -> u8
    ensures { result ≡ plain_rise supports }
{
    if supports { ARM_UP } else { ARM_NONE }
}

// The traits of a kind with no shape of its own.
pub fn plain(profile: &[u8], kind: u8) -> BlockRedstoneTraits
    ensures { result ≡ plain profile.now kind }
{
    let own = blocks::properties(profile, kind);
    BlockRedstoneTraits {
        supports: own.supports_components,
        rise: plain_rise(own.supports_components),
        blocks: kind == blocks::kind::SOLID,
        weak: own.receives_weak_power,
        strong: own.receives_strong_power,
        drives: own.strong_power_drives_dust,
    }
}

// No traits: bottom slab, bottom stairs, and no block.
fn nothing() -> BlockRedstoneTraits
    ensures { result ≡ nothing }
{
    BlockRedstoneTraits {
        supports: false,
        rise: ARM_NONE,
        blocks: false,
        weak: false,
        strong: false,
        drives: false,
    }
}

// The traits of a shape that is not plain.
pub fn of_shape(shape: u8) -> BlockRedstoneTraits
    ensures { result ≡ of_shape shape }
{
    match shape {
        shape::TOP_SLAB | shape::TOP_STAIRS => BlockRedstoneTraits {
            supports: true,
            rise: ARM_SIDE,
            blocks: false,
            weak: false,
            strong: false,
            drives: false,
        },
        shape::DOUBLE_SLAB => BlockRedstoneTraits {
            supports: true,
            rise: ARM_UP,
            blocks: true,
            weak: true,
            strong: true,
            drives: true,
        },
        shape::GLASS => BlockRedstoneTraits {
            supports: true,
            rise: ARM_UP,
            blocks: false,
            weak: false,
            strong: false,
            drives: false,
        },
        _ => nothing(),
    }
}

// The traits of a row.
pub fn redstone_traits(profile: &[u8], table: &[u8], row: usize) -> BlockRedstoneTraits
    ensures { result ≡ traits profile.now table.now row }
{
    let shape = row::shape_of(table, row);
    if shape == shape::PLAIN {
        return plain(profile, row::kind_of(table, row));
    }
    of_shape(shape)
}

// The traits of what stands at a position; an empty position has none.
pub fn traits_at(profile: &[u8], table: &[u8], q: Pos) -> BlockRedstoneTraits
    ensures { result ≡ traits_at profile.now table.now q }
{
    let Found::At(i) = find(table, q) else {
        return nothing();
    };
    redstone_traits(profile, table, i)
}
