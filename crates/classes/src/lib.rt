// The parts of a class, and what a row of a class does towards its places.
#![tactic(auto)]

pub mod towards;

ghost use Rattle.std.specs.Prelude.{◌≡◌, ◌≤◌};
ghost use Rattle.blocks.specs.Kind.{is_dust};
ghost use Rattle.places.specs.Places.{opposite};
ghost use Rattle.classes.specs.Class.{rise_in, blocks_in, weak_in, strong_in, drives_in, charges_above_in, kind_in, facing_in, arm_in, has_arm_in, rises_by_in};

use blocks::kind;

pub fn rise_in(class: u32) -> u32
    ensures { result ≡ rise_in class }
{
    class % 4
}

pub fn blocks_in(class: u32) -> bool
    ensures { result ≡ blocks_in class }
{
    class / 4 % 2 == 1
}

pub fn weak_in(class: u32) -> bool
    ensures { result ≡ weak_in class }
{
    class / 8 % 2 == 1
}

pub fn strong_in(class: u32) -> bool
    ensures { result ≡ strong_in class }
{
    class / 16 % 2 == 1
}

pub fn drives_in(class: u32) -> bool
    ensures { result ≡ drives_in class }
{
    class / 32 % 2 == 1
}

pub fn charges_above_in(class: u32) -> bool
    ensures { result ≡ charges_above_in class }
{
    class / 128 % 2 == 1
}

pub fn kind_in(class: u32) -> u8
    ensures { result ≡ kind_in class }
{
    (class / 256 % 256) as u8
}

pub fn facing_in(class: u32) -> u8
    ensures { result ≡ facing_in class }
{
    (class / 65536 % 256) as u8
}

pub fn is_dust_in(class: u32) -> bool
    ensures { result ≡ is_dust (kind_in class) }
{
    kind_in(class) == kind::REDSTONE_WIRE
}

// The arm along a horizontal facing. A shift, since a match by the facing is a jump in the middle of the loops over the places.
pub fn arm_in(class: u32, facing: u8) -> u32
    requires le_facing { 1 ≤ facing }
    requires facing_bound { facing ≤ 4 }
    ensures { result ≡ arm_in class facing }
{
    (class >> (22 + 2 * (facing as u32))) % 4
}

// The arm along the opposite facing.
pub fn arm_against(class: u32, facing: u8) -> u32
    requires le_facing { 1 ≤ facing }
    requires facing_bound { facing ≤ 4 }
    ensures { result ≡ arm_in class (opposite facing) }
{
    arm_in(class, (facing + 1) % 4 + 1)
}

pub fn has_arm_in(class: u32, facing: u8) -> bool
    requires le_facing { 1 ≤ facing }
    requires facing_bound { facing ≤ 4 }
    ensures { result ≡ has_arm_in class facing }
{
    arm_in(class, facing) != 0
}

// Whether there is a rise, and it is that of the arm.
pub fn rises_by_in(class: u32, arm: u32) -> bool
    ensures { result ≡ rises_by_in class arm }
{
    (rise_in(class) != 0) & (rise_in(class) == arm)
}
