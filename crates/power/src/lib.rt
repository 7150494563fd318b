// Strong power, the weak power that comes of it, and the direct levels of dust, each spread from its sources; and whether any row receives power.
#![tactic(auto)]

ghost use Rattle.std.specs.Prelude.{◌≡◌, length};
ghost use Rattle.network.specs.Network.{strong_of};
ghost use Rattle.circuit.specs.Circuit.{circuit};
ghost use Rattle.power.specs.Power.{base_of, direct_of, Powered, none_mapped};

use circuit::{Edge, Network};
use classes::{strong_in, weak_in};
use columns::{all_indices, zeros};
use spread::spread;

fn fill_strong(network: Network, emitted: &[u8], strong: &mut [u8])
    requires { (length emitted.now ≡ length network.class.now) × (length strong.old ≡ length network.class.now) }
    ensures { strong.new ≡ strong_of (circuit network.entry.near.now network.entry.class.now) emitted.now }
{
    zeros(strong);
    spread(Edge::EmittedToStrong, 0, network, emitted, strong);
}

fn fill_base(network: Network, strong: &[u8], base: &mut [u8])
    requires { (length strong.now ≡ length network.class.now) × (length base.old ≡ length network.class.now) }
    ensures { base.new ≡ base_of (circuit network.entry.near.now network.entry.class.now) strong.now }
{
    zeros(base);
    spread(Edge::StrongToWeak, 0, network, strong, base);
}

fn fill_direct(network: Network, emitted: &[u8], strong: &[u8], direct: &mut [u8])
    requires { (length emitted.now ≡ length network.class.now) × (length strong.now ≡ length network.class.now) × (length direct.old ≡ length network.class.now) }
    ensures { direct.new ≡ direct_of (circuit network.entry.near.now network.entry.class.now) emitted.now strong.now }
{
    zeros(direct);
    spread(Edge::EmittedToDust, 0, network, emitted, direct);
    spread(Edge::StrongToDust, 0, network, strong, direct);
}

// All three.
pub fn fill_power(
    network: Network,
    emitted: &[u8],
    strong: &mut [u8],
    base: &mut [u8],
    direct: &mut [u8],
)
    requires { (length emitted.now ≡ length network.class.now) × (length strong.old ≡ length network.class.now) × (length base.old ≡ length network.class.now) × (length direct.old ≡ length network.class.now) }
    ensures { Powered (circuit network.entry.near.now network.entry.class.now) emitted.now strong.new base.new direct.new }
{
    fill_strong(network, emitted, strong);
    fill_base(network, strong, base);
    fill_direct(network, emitted, strong, direct);
}

// Whether no row receives power: the map is empty.
pub fn none_mapped(class: &[u32]) -> bool
    ensures { result ≡ none_mapped class.now }
{
    all_indices(class.len(), |i| !(weak_in(class[i]) | strong_in(class[i])))
}
