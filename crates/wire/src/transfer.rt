// How power goes from dust to dust.
ghost use Rattle.std.specs.Prelude.{◌≡◌, ◌&&◌};
ghost use Rattle.blocks.specs.Kind.{is_dust};
ghost use Rattle.world.specs.Rows.{kind_of};
ghost use Rattle.arms.specs.Arms.{arm_of};
ghost use Rattle.wire.specs.Transfer.{fits_horizontal, fits_rise, fits_fall, fits, rule_of, dust_transfer, dust_transmits};

use arms::{arm_of, has_arm};
use blocks::kind;
use columns::Found;
use places::{Facing, Pos};
use traits::traits_at;
use world::find::find;
use world::row::{kind_of, pos_of};

// The rule by which power goes from one dust to another.
#[derive(Drop)]
pub enum DustTransfer {
    Horizontal,
    Rise,
    FallThroughConductor,
}

// Whether the sink, row i, is beside the source, row j, and both have the arm.
fn fits_horizontal(profile: &[u8], table: &[u8], j: usize, i: usize, facing: u8) -> bool
    ensures { result ≡ fits_horizontal (arm_of profile.now table.now) table.now j i facing }
{
    let side = pos_of(table, j).beside(Facing { code: facing });
    if side.same(pos_of(table, i)) {
        let back = Facing { code: facing }.opposite();
        return has_arm(profile, table, j, facing) & has_arm(profile, table, i, back.code);
    }
    false
}

// Whether the sink is above the cell beside, whose rise is the source's arm.
fn fits_rise(profile: &[u8], table: &[u8], j: usize, i: usize, facing: u8) -> bool
    ensures { result ≡ fits_rise (arm_of profile.now table.now) profile.now table.now j i facing }
{
    let side = pos_of(table, j).beside(Facing { code: facing });
    if side.above().same(pos_of(table, i)) {
        return traits_at(profile, table, side).rises_by(arm_of(profile, table, j, facing));
    }
    false
}

// Whether the sink is below the cell beside, and the block under the source drives dust with the sink's arm back for its rise.
fn fits_fall(profile: &[u8], table: &[u8], j: usize, i: usize, facing: u8) -> bool
    ensures { result ≡ fits_fall (arm_of profile.now table.now) profile.now table.now j i facing }
{
    let source = pos_of(table, j);
    if source
        .beside(Facing { code: facing })
        .below()
        .same(pos_of(table, i))
    {
        let under = traits_at(profile, table, source.below());
        let back = Facing { code: facing }.opposite();
        return under.drives & under.rises_by(arm_of(profile, table, i, back.code));
    }
    false
}

// The height steps from the cell beside the source to the sink: one rule for each. Numbers, over which the loop of `dust_transfer` goes.
const LEVEL: u8 = 0;

const UP: u8 = 1;

const DOWN: u8 = 2;

// Whether the rule of a height step fits.
fn fits(profile: &[u8], table: &[u8], j: usize, i: usize, facing: u8, height: u8) -> bool
    ensures { result ≡ fits (arm_of profile.now table.now) profile.now table.now j i facing height }
{
    match height {
        LEVEL => fits_horizontal(profile, table, j, i, facing),
        UP => fits_rise(profile, table, j, i, facing),
        _ => fits_fall(profile, table, j, i, facing),
    }
}

fn rule_of(height: u8) -> DustTransfer
    ensures { result ≡ rule_of height }
{
    match height {
        LEVEL => DustTransfer::Horizontal,
        UP => DustTransfer::Rise,
        _ => DustTransfer::FallThroughConductor,
    }
}

fn are_dust(table: &[u8], j: usize, i: usize) -> bool
    ensures { result ≡ (is_dust (kind_of table.now j) && is_dust (kind_of table.now i)) }
{
    (kind_of(table, j) == kind::REDSTONE_WIRE) & (kind_of(table, i) == kind::REDSTONE_WIRE)
}

// The rule between what stands at two positions: the first that fits, facing by facing and height by height.
pub fn dust_transfer(profile: &[u8], table: &[u8], source: Pos, sink: Pos) -> Option<DustTransfer>
    ensures { result ≡ dust_transfer profile.now table.now source sink }
{
    let Found::At(j) = find(table, source) else {
        return None;
    };
    let Found::At(i) = find(table, sink) else {
        return None;
    };
    if !are_dust(table, j, i) {
        return None;
    }
    let mut found = None;
    'facings: for facing in Facing::NORTH..=Facing::WEST {
        'heights: for height in LEVEL..=DOWN {
            if fits(profile, table, j, i, facing, height) {
                found = Some(rule_of(height));
                break 'facings;
            }
        }
    }
    found
}

pub fn dust_transmits(profile: &[u8], table: &[u8], source: Pos, sink: Pos) -> bool
    ensures { result ≡ dust_transmits profile.now table.now source sink }
{
    dust_transfer(profile, table, source, sink).is_some()
}
