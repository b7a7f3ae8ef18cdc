// The five tables of an enquiry, filled with least totals.
ghost use Rattle.std.specs.Prelude.{◌≡◌, ◌<◌, ◌≤◌, length};
ghost use Rattle.network.specs.Copies.{copy_meaning};
ghost use Rattle.length.specs.declared.standard.StandardKind.TheVariants.{Delay, Jitter, Charge, Hops};
ghost use Rattle.length.specs.Standard.{standard};
ghost use Rattle.length.specs.Least.{table_after};

use super::enquiry::Enquiry;
use length::{Kind, StandardKind, least_totals};
use network::NetworkCopy;

// Fills one table, which has a place for each site.
fn fill_one<Q, K: Kind>(
    network: &NetworkCopy,
    enquiry: &Enquiry<Q>,
    kind: &K,
    table: &mut [Option<K::Length>],
)
    requires destination { enquiry.now.destination < (copy_meaning network.now).sites }
    requires width { 0 < enquiry.now.width }
    requires table { (copy_meaning network.now).sites ≤ length table.old }
    ensures { table.new ≡ table_after (K.Kind.model kind.now) (copy_meaning network.now) enquiry.now.width enquiry.now.destination table.old }
{
    // not refused, since the checks of the enquiry have passed
    let _ = least_totals(network, kind, enquiry.destination, enquiry.width, table);
}

// The tables that a caller lends: least totals in the enquiry's kind, and of the four figures that have limits. Who owns such
// tables has a struct of its own: one for both would take a type parameter for each kind of field and read no plainer.
#[derive(Drop)]
pub struct LentTables<'a, L> {
    pub length: &'a mut [Option<L>],
    pub delay: &'a mut [Option<u32>],
    pub jitter: &'a mut [Option<u32>],
    pub charge: &'a mut [Option<u32>],
    pub hops: &'a mut [Option<u32>],
}

// Fills the five tables.
pub(super) fn fill_tables<K: Kind>(
    network: &NetworkCopy,
    enquiry: &Enquiry<K>,
    tables: &mut LentTables<'_, K::Length>,
)
    requires destination { enquiry.now.destination < (copy_meaning network.now).sites }
    requires width { 0 < enquiry.now.width }
    requires length { (copy_meaning network.now).sites ≤ length tables.old.length.now }
    requires delay { (copy_meaning network.now).sites ≤ length tables.old.delay.now }
    requires jitter { (copy_meaning network.now).sites ≤ length tables.old.jitter.now }
    requires charge { (copy_meaning network.now).sites ≤ length tables.old.charge.now }
    requires hops { (copy_meaning network.now).sites ≤ length tables.old.hops.now }
    ensures length { tables.new.length.now ≡ table_after (K.Kind.model enquiry.now.kind) (copy_meaning network.now) enquiry.now.width enquiry.now.destination tables.old.length.now }
    ensures delay { tables.new.delay.now ≡ table_after (standard Delay) (copy_meaning network.now) enquiry.now.width enquiry.now.destination tables.old.delay.now }
    ensures jitter { tables.new.jitter.now ≡ table_after (standard Jitter) (copy_meaning network.now) enquiry.now.width enquiry.now.destination tables.old.jitter.now }
    ensures charge { tables.new.charge.now ≡ table_after (standard Charge) (copy_meaning network.now) enquiry.now.width enquiry.now.destination tables.old.charge.now }
    ensures hops { tables.new.hops.now ≡ table_after (standard Hops) (copy_meaning network.now) enquiry.now.width enquiry.now.destination tables.old.hops.now }
    ensures same_length { tables.new.length.ghost_name ≡ tables.old.length.ghost_name }
    ensures same_delay { tables.new.delay.ghost_name ≡ tables.old.delay.ghost_name }
    ensures same_jitter { tables.new.jitter.ghost_name ≡ tables.old.jitter.ghost_name }
    ensures same_charge { tables.new.charge.ghost_name ≡ tables.old.charge.ghost_name }
    ensures same_hops { tables.new.hops.ghost_name ≡ tables.old.hops.ghost_name }
{
    fill_one(network, enquiry, &enquiry.kind, tables.length);
    fill_one(network, enquiry, &StandardKind::Delay, tables.delay);
    fill_one(network, enquiry, &StandardKind::Jitter, tables.jitter);
    fill_one(network, enquiry, &StandardKind::Charge, tables.charge);
    fill_one(network, enquiry, &StandardKind::Hops, tables.hops);
}
