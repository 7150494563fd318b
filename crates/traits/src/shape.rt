// The numbers of the shapes, as byte 28 of a row has them. In a table that is not accepted the byte may be any.
pub const PLAIN: u8 = 0;

pub const BOTTOM_SLAB: u8 = 1;

pub const TOP_SLAB: u8 = 2;

pub const DOUBLE_SLAB: u8 = 3;

pub const BOTTOM_STAIRS: u8 = 4;

pub const TOP_STAIRS: u8 = 5;

pub const GLASS: u8 = 6;
