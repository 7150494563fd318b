// The shape of a block by its name. A name is never refused.
#![tactic(auto)]

ghost use Rattle.std.specs.Prelude.{◌≡◌};
ghost use Rattle.names.specs.Names.{ends_with, slab_shape, stairs_shape, is_glass, shape_of_name};

use traits::shape;

fn ends_with(s: &[u8], end: &[u8]) -> bool
    ensures { result ≡ ends_with end.now s.now }
{
    if s.len() < end.len() {
        return false;
    }
    let start = s.len() - end.len();
    columns::same(&s[start..], end)
}

// The shape of a slab, by its block state's type.
fn slab_shape(slab_type: &[u8]) -> u8
    ensures { result ≡ slab_shape slab_type.now }
{
    if columns::same(slab_type, b"top") {
        return shape::TOP_SLAB;
    }
    if columns::same(slab_type, b"double") {
        return shape::DOUBLE_SLAB;
    }
    shape::BOTTOM_SLAB
}

// The shape of stairs, by their block state's half.
fn stairs_shape(half: &[u8]) -> u8
    ensures { result ≡ stairs_shape half.now }
{
    if columns::same(half, b"top") {
        return shape::TOP_STAIRS;
    }
    shape::BOTTOM_STAIRS
}

fn is_glass(name: &[u8]) -> bool
    ensures { result ≡ is_glass name.now }
{
    columns::same(name, b"minecraft:glass") | columns::same(name, b"minecraft:tinted_glass")
}

// The shape of a name with the type and half of its block state, each empty where it is missing.
pub fn shape_of_name(name: &[u8], slab_type: &[u8], half: &[u8]) -> u8
    ensures { result ≡ shape_of_name name.now slab_type.now half.now }
{
    if ends_with(name, b"_slab") {
        return slab_shape(slab_type);
    }
    if ends_with(name, b"_stairs") {
        return stairs_shape(half);
    }
    if is_glass(name) {
        return shape::GLASS;
    }
    shape::PLAIN
}
