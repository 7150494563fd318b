// The bounds that signals and rounds have.
ghost use Rattle.std.specs.Prelude.{◌≡◌, cond, min};
ghost use Rattle.columns.specs.Signal.{max_signal};

// The level of a signal.
#[derive(Clone, Copy)]
pub struct Signal {
    pub level: u8,
}

impl Signal {
    // The cap on the level of dust: `MAX_SIGNAL`.
    pub const MAX: u8 = 15;

    pub fn capped(self) -> Self
        ensures { result.level ≡ min max_signal self.level }
    {
        Self {
            level: self.level.min(Self::MAX),
        }
    }

    // The level of what says none: the largest where it is on.
    pub fn unsaid(on: bool) -> u8
        ensures { result ≡ cond on max_signal 0 }
    {
        if on { Self::MAX } else { 0 }
    }
}

// The number of rounds by which a table settles.
#[derive(Clone, Copy)]
pub struct Rounds {
    pub count: u32,
}

impl Rounds {
    // No table needs more rounds than this, whatever its devices.
    pub const MAX: u32 = 17;
}
