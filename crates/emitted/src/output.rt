// The level that a row emits, before any cap of dust.
ghost use Rattle.std.specs.Prelude.{◌≡◌, length};
ghost use Rattle.world.specs.Rows.{rows};
ghost use Rattle.emitted.specs.Emitted.{switch_level, emitted_level, emitted};

use blocks::kind;
use levels::signal::Signal;
use world::row;

// The level of a lever, button or plate: 15 where it is on and gives none.
#[tactic(auto, unfolding(crate::specs::Emitted::switch_level))]
fn switch_level(table: &[u8], row: usize) -> u8
    ensures { result ≡ switch_level table.now row }
{
    if row::is_powered(table, row) {
        let given = Signal {
            level: row::level_or(table, row, Signal::MAX),
        };
        return given.capped().level;
    }
    0
}

// The level that a row with this device byte emits.
#[tactic(auto, unfolding(crate::specs::Emitted::emitted_level))]
pub fn component_output_level(table: &[u8], row: usize, device: u8) -> u8
    ensures { result ≡ emitted_level table.now row device }
{
    match row::kind_of(table, row) {
        kind::REDSTONE_BLOCK => Signal::MAX,
        kind::LEVER | kind::BUTTON | kind::PRESSURE_PLATE => switch_level(table, row),
        kind::REDSTONE_TORCH | kind::REPEATER => Signal::unsaid(device != 0),
        kind::COMPARATOR => device,
        _ => 0,
    }
}

// The level that each row emits.
#[tactic(auto, using(columns::proofs::Columns::fills), unfolding(crate::specs::Emitted::emitted))]
pub fn fill_emitted(table: &[u8], devices: &[u8], out: &mut [u8])
    requires { length out.old ≡ rows table.now }
    ensures { out.new ≡ emitted table.now devices.now }
{
    for (i, level) in out.iter_mut().enumerate() {
        *level = component_output_level(table, i, columns::byte_at(devices, i));
    }
}
