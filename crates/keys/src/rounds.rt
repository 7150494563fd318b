// The number of rounds, by the keys.
ghost use Rattle.std.specs.Prelude.{◌≡◌, length};
ghost use Rattle.keys.specs.Rounds.{last_of, shown_by, last_shown};

use crate::key::{level_of, round_of};
use columns::larger;

// The last round in which a level of dust arrives.
pub fn last_of(keys: &[u8]) -> u8
    ensures { result ≡ last_of keys.now }
{
    let mut last = 0;
    for key in keys {
        last = larger(last, round_of(*key));
    }
    last
}

// The round in which the level of a key arrives, where it is above the weak power that is there without it.
fn shown(base: u8, key: u8) -> u8
    ensures { result ≡ shown_by base key }
{
    if base < level_of(key) {
        round_of(key)
    } else {
        0
    }
}

// The last of them.
pub fn last_shown(base: &[u8], under: &[u8]) -> u8
    requires { length base.now ≡ length under.now }
    ensures { result ≡ last_shown base.now under.now }
{
    let mut last = 0;
    for (i, key) in under.iter().enumerate() {
        last = larger(last, shown(base[i], *key));
    }
    last
}
