// The numbers of the kinds, as byte 12 of a row has them, and what is asked of a kind. No enum: in a table that is not accepted the byte may be any,
// and every definition is of the byte.
ghost use Rattle.std.specs.Prelude.{◌≡◌};
ghost use Rattle.blocks.specs.Kind.{is_switch, is_source, is_diode};

pub const AIR: u8 = 0;

pub const SOLID: u8 = 1;

pub const TRANSPARENT: u8 = 2;

pub const REDSTONE_WIRE: u8 = 3;

pub const REDSTONE_TORCH: u8 = 4;

pub const REPEATER: u8 = 5;

pub const COMPARATOR: u8 = 6;

pub const LEVER: u8 = 7;

pub const BUTTON: u8 = 8;

pub const PRESSURE_PLATE: u8 = 9;

pub const REDSTONE_LAMP: u8 = 10;

pub const REDSTONE_BLOCK: u8 = 11;

pub const PISTON: u8 = 12;

pub const COPPER_BULB: u8 = 13;

// Lever, button and plate: what a player switches.
pub fn is_switch(kind: u8) -> bool
    ensures { result ≡ is_switch kind }
{
    (kind == LEVER) | ((kind == BUTTON) | (kind == PRESSURE_PLATE))
}

// These, torch and redstone block: what feeds and joins dust on every side.
pub fn is_source(kind: u8) -> bool
    ensures { result ≡ is_source kind }
{
    (kind == LEVER)
        | ((kind == BUTTON)
            | ((kind == PRESSURE_PLATE) | ((kind == REDSTONE_TORCH) | (kind == REDSTONE_BLOCK))))
}

// Repeater and comparator: what has an input and an output side.
pub fn is_diode(kind: u8) -> bool
    ensures { result ≡ is_diode kind }
{
    (kind == REPEATER) | (kind == COMPARATOR)
}
