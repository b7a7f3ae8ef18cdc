// Ring plans as networks.
ghost use Rattle.std.specs.Prelude.{◌≡◌, ◌<◌, ◌≤◌, Some, None, if◌then◌else◌};
ghost use Rattle.network.specs.Checks.{outcome};
ghost use Rattle.network.specs.Ring.{ring_answer, ring_told, ring_arc, next_site, FiguresFit, over_limit};
ghost use Rattle.network.specs.RingPlans.{ring_meaning};
ghost use Rattle.std.proofs.Common.{arith};
ghost use Rattle.network.specs.Rings.{ring_length, ring_fits};

use super::arc::{Arc, Network};
use super::figures::{Figures, RingRefusal};
use super::plan::RingPlan;

fn over_limit(figures: Figures) -> bool
    ensures { result ≡ over_limit figures }
{
    figures.weight > 4095
        || figures.delay > 4095
        || figures.jitter > 1023
        || figures.charge > 1023
        || figures.capacity > 255
}

// The site after a site of the ring.
fn next_site(sites: u8, site: u8) -> u8
    requires inside { site < sites }
    requires few { sites ≤ 64 }
    ensures { result ≡ next_site sites site }
{
    (site + 1) % sites
}

// The arc between two sites of the ring.
fn arc_between(figures: Figures, from: u8, to: u8) -> Arc
    requires { FiguresFit figures }
    ensures { result ≡ ring_arc figures from to }
{
    Arc {
        from,
        to,
        weight: figures.weight as u16,
        delay: figures.delay as u16,
        jitter: figures.jitter as u16,
        charge: figures.charge as u16,
        capacity: figures.capacity as u8,
    }
}

impl Figures {
    // The arc between two sites with these figures, or none where one is over its limit.
    pub fn arc(self, from: u8, to: u8) -> Option<Arc>
        ensures { result ≡ (if over_limit self then None else Some (ring_arc self from to)) }
    {
        (!over_limit(self)).then(|| arc_between(self, from, to))
    }
}

impl RingPlan {
    // A plan of so many sites, or the first check that fails: 8 for the sites, 9 for a figure.
    pub fn new(sites: u32, figures: Figures) -> Result<RingPlan, RingRefusal>
        ensures { outcome ring_meaning ring_told result ≡ ring_answer sites figures }
    {
        if sites < 3 || sites > 64 {
            return Err(RingRefusal::SitesOutside);
        }
        if over_limit(figures) {
            return Err(RingRefusal::FigureOverLimit);
        }
        Ok(RingPlan {
            sites: sites as u8,
            figures,
        })
    }
}

impl Network for RingPlan {
    ghost meaning = { ring_meaning };

    ghost formed = { λ self.
        record {
          some_sites = omega arith;
          few_sites = self.few_sites;
          few_arcs = omega (arith, ring_length self.sites self.figures);
          arcs_fit = ring_fits self.sites self.figures self.some_sites self.figures_fit;
        } };

    fn sites(&self) -> u8 {
        self.sites
    }

    fn arcs(&self) -> u16 {
        2 * u16::from(self.sites)
    }

    fn arc(&self, number: u32) -> Option<Arc> {
        if number >= 2 * u32::from(self.sites) {
            return None;
        }
        let site = (number / 2) as u8;
        let next = next_site(self.sites, site);
        if number % 2 == 0 {
            Some(arc_between(self.figures, site, next))
        } else {
            Some(arc_between(self.figures, next, site))
        }
    }
}
