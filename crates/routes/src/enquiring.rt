// The enquiry itself: the checks, the five tables, the work and the list.
ghost use Rattle.std.specs.Prelude.{◌≡◌, ◌<◌, ◌≤◌, min, true, length, is_some};
ghost use Rattle.network.specs.Checks.{first_failed, outcome};
ghost use Rattle.network.specs.Copies.{copy_meaning};
ghost use Rattle.routes.specs.Enquire.{early_checks, enquiry_answer, enquiry_told};
ghost use Rattle.routes.specs.Lent.{brought, held_in, routes_answer, routes_list};

use super::checking::{Sizes, early_checks};
use super::enquiry::{Enquiry, Found, RouteRow};
use super::extending::Search;
use super::filling::{LentTables, fill_tables};
use super::line::{Line, Notebook};
use super::listing::list_rows;
use super::refusals::EnquiryRefusal;
use super::taking::take_lines;
use length::Kind;
use network::{Network, NetworkCopy};

// How many places the shortest of the five tables has.
fn shortest<L>(tables: &LentTables<'_, L>) -> usize
    ensures { result ≡ min (min (min (length tables.now.length.now) (length tables.now.delay.now)) (min (length tables.now.jitter.now) (length tables.now.charge.now))) (length tables.now.hops.now) }
{
    let first = tables.length.len().min(tables.delay.len());
    let second = tables.jitter.len().min(tables.charge.len());
    first.min(second).min(tables.hops.len())
}

// Takes lines and lists the routes, once the tables are filled.
fn find_routes<K: Kind>(
    search: &Search<'_, '_, K>,
    notebook: &mut [Line<K::Length>],
    list: &mut [RouteRow],
) -> Result<Found, EnquiryRefusal>
    requires { search.now.enquiry.now.wanted ≤ length list.old }
    ensures answer { outcome (λ x. x) enquiry_told result ≡ routes_answer K.Kind.model (copy_meaning search.now.network.now) search.now.enquiry.now (length notebook.old) }
    ensures list { list.new ≡ routes_list K.Kind.model (copy_meaning search.now.network.now) search.now.enquiry.now (length notebook.old) list.old }
{
    let count = notebook.len().min(4096);
    let mut lines = Notebook::of(&mut notebook[..count]);
    let finished = take_lines(search, &mut lines).ok_or(EnquiryRefusal::TooFewLines)?;
    list_rows(lines.lines_used(), finished.as_slice(), list);
    Ok(Found {
        routes: finished.len() as u32,
        lines: lines.used as u32,
    })
}

// The shortest feasible routes of a network: the checks, the five tables, the work and the list. Refused with 20 to 26, and
// then nothing is changed, or with 27, and then the tables are filled.
pub fn enquire<N: Network, K: Kind>(
    network: &N,
    enquiry: &Enquiry<K>,
    tables: &mut LentTables<'_, K::Length>,
    notebook: &mut [Line<K::Length>],
    list: &mut [RouteRow],
) -> Result<Found, EnquiryRefusal>
    ensures answer { outcome (λ x. x) enquiry_told result ≡ (enquiry_answer K.Kind.model (N.Network.meaning network.now) (brought enquiry.now tables.old list.old (length notebook.old))).result }
    ensures tables { held_in tables.new ≡ (enquiry_answer K.Kind.model (N.Network.meaning network.now) (brought enquiry.now tables.old list.old (length notebook.old))).tables }
    ensures list { list.new ≡ (enquiry_answer K.Kind.model (N.Network.meaning network.now) (brought enquiry.now tables.old list.old (length notebook.old))).list }
    ensures notebook { is_some (first_failed (early_checks K.Kind.model (N.Network.meaning network.now) (brought enquiry.now tables.old list.old (length notebook.old)))) ≡ true → notebook.new ≡ notebook.old }
    ensures same_length { tables.new.length.ghost_name ≡ tables.old.length.ghost_name }
    ensures same_delay { tables.new.delay.ghost_name ≡ tables.old.delay.ghost_name }
    ensures same_jitter { tables.new.jitter.ghost_name ≡ tables.old.jitter.ghost_name }
    ensures same_charge { tables.new.charge.ghost_name ≡ tables.old.charge.ghost_name }
    ensures same_hops { tables.new.hops.ghost_name ≡ tables.old.hops.ghost_name }
{
    let copy = NetworkCopy::of(network);
    let sizes = Sizes {
        sites: usize::from(copy.sites()),
        list: list.len(),
        tables: shortest(tables),
    };
    early_checks(enquiry, sizes)?;
    fill_tables(&copy, enquiry, tables);
    let search = Search {
        network: &copy,
        enquiry,
        rests: &*tables,
    };
    find_routes(&search, notebook, list)
}
