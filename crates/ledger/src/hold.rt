// The call that holds capacity along a route.
ghost use Rattle.std.specs.Prelude.{◌≡◌};
ghost use Rattle.network.specs.Checks.{answered, outcome};
ghost use Rattle.ledger.specs.Ledgers.{ledger_tally};
ghost use Rattle.ledger.specs.Routes.{route_refusal};
ghost use Rattle.ledger.specs.Tally.{hold_next, hold_refusal, next_ticket, unless_refused};
ghost use Rattle.ledger.specs.Told.{hold_told};

use super::arcs::change_sold;
use super::ledger::Ledger;
use super::refusals::HoldRefusal;
use super::route::{all_exist, are_joined, have_room, sites_apart};
use super::row::{Circuit, RowCall, apply, empty_row};
use super::slip::Slip;
use network::{ArcNumbers, Network};

impl<N: Network> Ledger<N> {
    // The checks of a hold that look at its route. Answers the width and the arcs as a circuit has them.
    fn check_route(&self, width: u32, arcs: &[u32]) -> Result<(u8, ArcNumbers), HoldRefusal>
        ensures { outcome (λ x. x) hold_told result ≡ answered (route_refusal (N.Network.meaning self.now.network) (ledger_tally self.now) width arcs.now) (width, arcs.now) }
    {
        if width == 0 {
            return Err(HoldRefusal::WidthZero);
        }
        if arcs.is_empty() || arcs.len() > 15 {
            return Err(HoldRefusal::ArcsOutside);
        }
        if !all_exist(&self.network, arcs) {
            return Err(HoldRefusal::NoSuchArc);
        }
        if !are_joined(&self.network, arcs) {
            return Err(HoldRefusal::NotJoined);
        }
        if !sites_apart(&self.network, arcs) {
            return Err(HoldRefusal::SiteTwice);
        }
        // no network has an arc of a capacity above 255
        let width = u8::try_from(width).map_err(|_| HoldRefusal::NoRoom)?;
        if !have_room(self, arcs, width) {
            return Err(HoldRefusal::NoRoom);
        }
        // not refused, since no network has an arc of a number above 255; only here, so that a refusal does not pay for it
        let numbers = ArcNumbers::of(arcs).ok_or(HoldRefusal::NoSuchArc)?;
        Ok((width, numbers))
    }

    // Turns an empty row held: the width is taken on every arc of a route, and the slip with the next ticket is given. The
    // checks run in this order, each over the whole route: 30 the width is 0, 31 there are not 1 to 15 arcs, 32 a number is
    // not that of an arc, 33 the arcs are not joined, 34 a site is met twice, 35 an arc's free capacity is below the width,
    // 36 no row is empty, 37 all tickets are given.
    pub fn hold(&mut self, width: u32, arcs: &[u32]) -> Result<Slip<N>, HoldRefusal>
        ensures answer { outcome (λ slip. slip.ticket) hold_told result ≡ answered (hold_refusal (N.Network.meaning self.old.network) (ledger_tally self.old) width arcs.now) (next_ticket (ledger_tally self.old)) }
        ensures tally { ledger_tally self.new ≡ unless_refused (hold_refusal (N.Network.meaning self.old.network) (ledger_tally self.old) width arcs.now) (hold_next (ledger_tally self.old) width arcs.now) (ledger_tally self.old) }
        ensures network { self.new.network ≡ self.old.network }
    {
        let (width, arcs) = self.check_route(width, arcs)?;
        let place = empty_row(&self.rows).ok_or(HoldRefusal::NoEmptyRow)?;
        let ticket = self.given.checked_add(1).ok_or(HoldRefusal::NoTicketLeft)?;
        apply(
            &mut self.rows[place],
            RowCall::Hold(Circuit {
                ticket,
                width,
                arcs,
            }),
        );
        change_sold(&mut self.arcs, arcs.as_slice(), |sold| sold + width);
        self.given = ticket;
        Ok(Slip::new(ticket))
    }
}
