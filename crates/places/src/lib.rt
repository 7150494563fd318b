// Positions and facings, by value: the `Pos` and `Facing` of the original.
#![tactic(auto)]

ghost use Rattle.std.specs.Prelude.{◌≡◌, ℤ};
ghost use Rattle.places.specs.Places.{cell, same_pos, before, opposite, horizontal_offset, beside, above, below};
ghost use Rattle.places.specs.Places.{offset as moved};

// A block's position. Positions are in the table's order: by x, then y, then z.
#[derive(Clone, Copy, PartialEq, Eq, PartialOrd, Ord)]
pub struct Pos {
    pub x: i32,
    pub y: i32,
    pub z: i32,
}

impl Pos {
    pub fn new(x: i32, y: i32, z: i32) -> Self
        ensures { result ≡ cell x y z }
    {
        Self { x, y, z }
    }

    // The position that many cells away. The original's sum may overflow; here each coordinate stops at the ends of its type.
    pub fn offset(self, dx: i32, dy: i32, dz: i32) -> Self
        ensures { result ≡ moved self dx dy dz }
    {
        Self {
            x: self.x.saturating_add(dx),
            y: self.y.saturating_add(dy),
            z: self.z.saturating_add(dz),
        }
    }

    pub fn same(self, other: Pos) -> bool
        ensures { result ≡ same_pos self other }
    {
        self == other
    }

    // Whether this position stands earlier in the table's order.
    pub fn before(self, other: Pos) -> bool
        ensures { result ≡ before self other }
    {
        self < other
    }

    // The cell beside along a horizontal facing; this one along any other.
    pub fn beside(self, facing: Facing) -> Self
        ensures { result ≡ beside self facing.code }
    {
        let Some(step) = facing.horizontal_offset() else {
            return self.offset(0, 0, 0);
        };
        self.offset(step.x, 0, step.z)
    }

    pub fn above(self) -> Self
        ensures { result ≡ above self }
    {
        self.offset(0, 1, 0)
    }

    pub fn below(self) -> Self
        ensures { result ≡ below self }
    {
        self.offset(0, -1, 0)
    }
}

// A facing, by its number in byte 13 of a row; 0 where it is missing. In a table that is not accepted it may be any.
#[derive(Clone, Copy)]
pub struct Facing {
    pub code: u8,
}

impl Facing {
    pub const NORTH: u8 = 1;

    pub const EAST: u8 = 2;

    pub const SOUTH: u8 = 3;

    pub const WEST: u8 = 4;

    pub const UP: u8 = 5;

    pub const DOWN: u8 = 6;

    #[tactic(auto, unfolding(crate::specs::Places::opposite))]
    pub fn opposite(self) -> Self
        ensures { result.code ≡ opposite self.code }
    {
        let code = self.code;
        let back = match code {
            1 => Self::SOUTH,
            2 => Self::WEST,
            3 => Self::NORTH,
            4 => Self::EAST,
            5 => Self::DOWN,
            6 => Self::UP,
            _ => 0,
        };
        Self { code: back }
    }

    // The step of one cell along this facing; none where it is missing, Up or Down.
    #[tactic(auto, unfolding(crate::specs::Places::horizontal_offset, crate::specs::Places::step))]
    pub fn horizontal_offset(self) -> Option<Pos>
        ensures { result ≡ horizontal_offset self.code }
    {
        let code = self.code;
        match code {
            1 => Some(Pos::new(0, 0, -1)),
            2 => Some(Pos::new(1, 0, 0)),
            3 => Some(Pos::new(0, 0, 1)),
            4 => Some(Pos::new(-1, 0, 0)),
            _ => None,
        }
    }
}
