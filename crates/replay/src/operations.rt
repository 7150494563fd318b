// Whether the answer of a record is right, by its operation.
ghost use Rattle.std.specs.Prelude.{◌≡◌};
ghost use Rattle.replay.specs.Operations.{is_right};

use answers::right;
use columns::byte_at;

// By the operation, the first byte. One that is not known is wrong.
pub fn is_right(r: &[u8]) -> bool
    ensures { result ≡ is_right r.now }
{
    let operation = byte_at(r, 0);
    match operation {
        1 => right::traits_right(r),
        2 => right::shape_right(r),
        3 => right::find_right(r),
        4 => support_answers::supports_right(r),
        5 => right::properties_right(r),
        6 => right::offset_right(r),
        7 => wire_answers::right::arms_right(r),
        8 => wire_answers::right::transfer_right(r),
        9 => wire_answers::right::redraw_right(r),
        10 => calls::settle_right(r),
        11 => calls::fresh_right(r),
        12 => tick_calls::ticks_right(r),
        13 => tick_calls::switch_right(r),
        _ => false,
    }
}
