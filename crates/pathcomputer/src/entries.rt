// How a table is filled, and tables as networks.
ghost use Rattle.std.specs.Prelude.{◌≡◌, ◌≤◌, true, [], is_ok, IfOk, if◌then◌else◌};
ghost use Rattle.network.specs.Limits.{arc_fits};
ghost use Rattle.pathcomputer.specs.Tables.{arc_from, table_meaning, with_arc};
ghost use Rattle.std.proofs.Common.{arith};
ghost use Rattle.network.specs.Fits.{all_fit};

use super::failure::Fault;
use super::table::Table;
use network::{Arc, Figures, Network};
use std::alloc::Global;

// The seven figures of an arc as they stand in a line: from, to, weight, delay, jitter, charge, capacity.
pub type ArcFigures = [u32; 7];

// The arc that seven figures give in a network of so many sites, or which limit they do not keep.
fn arc_within(sites: u8, figures: ArcFigures) -> Result<Arc, Fault>
    requires { sites ≤ 64 }
    ensures value { IfOk result (λ arc. arc ≡ arc_from figures) }
    ensures fits { IfOk result (λ arc. arc_fits sites arc ≡ true) }
{
    let [from, to, weight, delay, jitter, charge, capacity] = figures;
    if from >= u32::from(sites) || to >= u32::from(sites) {
        return Err(Fault::NoSuchSite);
    }
    if from == to {
        return Err(Fault::SameSite);
    }
    let figures = Figures {
        weight,
        delay,
        jitter,
        charge,
        capacity,
    };
    figures
        .arc(from as u8, to as u8)
        .ok_or(Fault::FigureOverLimit)
}

impl Table {
    // A table of so many sites, with no arcs yet.
    pub fn new(heap: Global, sites: u32) -> Result<Table, Fault>
        ensures { IfOk result (λ t. table_meaning t ≡ record { sites = sites; arcs = [] }) }
    {
        if sites < 2 || sites > 64 {
            return Err(Fault::SitesOutside);
        }
        Ok(Table {
            sites: sites as u8,
            arcs: Vec::new(heap),
        })
    }

    // Puts an arc at the end, or says why not.
    pub fn add(&mut self, figures: ArcFigures) -> Result<(), Fault>
        ensures { table_meaning self.new ≡ (if is_ok result then with_arc (arc_from figures) (table_meaning self.old) else table_meaning self.old) }
    {
        if self.arcs.len() >= 256 {
            return Err(Fault::TooManyArcs);
        }
        self.arcs.push(arc_within(self.sites, figures)?)?;
        Ok(())
    }
}

impl Network for Table {
    ghost meaning = { table_meaning };

    ghost formed = { λ self.
        record {
          some_sites = self.some_sites;
          few_sites = self.few_sites;
          few_arcs = omega (arith, self.few_arcs, self.arcs.ok.0);
          arcs_fit = all_fit self.sites self.arcs.items self.arcs_fit;
        } };

    fn sites(&self) -> u8 {
        self.sites
    }

    fn arcs(&self) -> u16 {
        self.arcs.len() as u16
    }

    fn arc(&self, number: u32) -> Option<Arc> {
        self.arcs.get(number as usize).copied()
    }
}
