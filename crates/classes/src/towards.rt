// What a row of a class does towards its place k.
ghost use Rattle.std.specs.Prelude.{◌≡◌, ◌<◌};
ghost use Rattle.classes.specs.Towards.{places, outputs_in, charges_in, feeds_in, leads_in, touched_in};

use crate::{arm_against, charges_above_in, facing_in, has_arm_in, is_dust_in, kind_in};
use blocks::kind;
use blocks::kind::{is_diode, is_source, is_switch};

// Whether it is a repeater or comparator whose output is there.
fn outputs_in(class: u32, k: u8) -> bool
    requires { k < places }
    ensures { result ≡ outputs_in class k }
{
    (k < 4) & (is_diode(kind_in(class)) & (facing_in(class) == k + 1))
}

// Whether what it emits arrives there as strong power.
pub fn charges_in(class: u32, k: u8) -> bool
    requires { k < places }
    ensures { result ≡ charges_in class k }
{
    let kind = kind_in(class);
    if k < 6 {
        return (kind == kind::REDSTONE_BLOCK)
            | (outputs_in(class, k)
                | ((k == 4) & ((kind == kind::REDSTONE_TORCH) & charges_above_in(class))));
    }
    is_switch(kind)
}

// Whether the dust there has what it emits for its direct level.
pub fn feeds_in(class: u32, k: u8) -> bool
    requires { k < places }
    ensures { result ≡ feeds_in class k }
{
    is_source(kind_in(class)) | outputs_in(class, k)
}

// Whether its dust reaches the block there.
pub fn leads_in(class: u32, k: u8) -> bool
    requires { k < places }
    ensures { result ≡ leads_in class k }
{
    if k < 4 {
        return is_dust_in(class) & has_arm_in(class, k + 1);
    }
    is_dust_in(class) & (k == 5)
}

// Whether it is dust and touches the row whose place k it is.
pub fn touched_in(class: u32, k: u8) -> bool
    requires { k < places }
    ensures { result ≡ touched_in class k }
{
    if k < 4 {
        return is_dust_in(class) & (arm_against(class, k + 1) != 0);
    }
    is_dust_in(class)
}
