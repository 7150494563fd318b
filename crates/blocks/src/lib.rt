// The kinds of block, and their properties by the profile that each call is given.
#![tactic(auto)]

pub mod kind;

ghost use Rattle.std.specs.Prelude.{◌≡◌};
ghost use Rattle.blocks.specs.Profile.{properties_of, torch_charges_above};

// How many bytes a profile has: one for each kind but the bulb, or for the bulb, too.
pub const PROFILE_BYTES: usize = 13;

pub const PROFILE_BYTES_WITH_BULB: usize = 14;

#[derive(Drop)]
pub struct BlockProperties {
    pub supports_components: bool,
    pub receives_weak_power: bool,
    pub receives_strong_power: bool,
    pub repeater_reads_block_power: bool,
    pub strong_power_drives_dust: bool,
}

// The properties of a kind. A kind that the profile has no byte for has none.
pub fn properties(profile: &[u8], kind: u8) -> BlockProperties
    ensures { result ≡ properties_of profile.now kind }
{
    let sum = columns::byte_at(profile, kind as usize);
    BlockProperties {
        supports_components: sum % 2 == 1,
        receives_weak_power: sum / 2 % 2 == 1,
        receives_strong_power: sum / 4 % 2 == 1,
        repeater_reads_block_power: sum / 8 % 2 == 1,
        strong_power_drives_dust: sum / 16 % 2 == 1,
    }
}

// Whether a lit torch charges the block above it.
pub fn torch_charges_above(profile: &[u8]) -> bool
    ensures { result ≡ torch_charges_above profile.now }
{
    columns::byte_at(profile, kind::REDSTONE_TORCH as usize) / 32 % 2 == 1
}
