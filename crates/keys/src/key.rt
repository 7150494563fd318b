// One key.
ghost use Rattle.std.specs.Prelude.{◌≡◌, ◌*◌, min};
ghost use Rattle.columns.specs.Signal.{max_signal};
ghost use Rattle.network.specs.Laws.Keys.{level_of, round_of};

use levels::signal::Signal;

// The level in a key.
pub fn level_of(key: u8) -> u8
    ensures { result ≡ level_of key }
{
    ((key as u32 + 15) / 16) as u8
}

// The round in which that level arrives, 0 where there is none.
pub fn round_of(key: u8) -> u8
    ensures { result ≡ round_of key }
{
    if key == 0 {
        0
    } else {
        (16 * (level_of(key) as u32) + 1 - (key as u32)) as u8
    }
}

// The key of dust with a direct level, which is capped.
pub fn own_key(direct: u8) -> u8
    ensures { result ≡ 16 * min max_signal direct }
{
    direct.min(Signal::MAX) * 16
}
