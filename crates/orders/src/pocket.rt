// The slips in hand.
ghost use Rattle.std.specs.Prelude.{◌≡◌, true, [], ◌∷◌, ◌++◌, is_ok, ◌==◌, length, min};
ghost use Rattle.std.specs.List.{position};
ghost use Rattle.ledger.specs.Ledgers.{ledger_tally};
ghost use Rattle.ledger.specs.Slips.{ticket_on};
ghost use Rattle.orders.specs.InHand.{AllHeld, Room, Taken, in_hand};

use ledger::{Ledger, Slip};
use network::Network;
use std::alloc::{AllocError, Global};

// Slips are put in when they are given, and taken out to be spent.
pub(super) struct Pocket<N> {
    pub(super) slips: Vec<Slip<N>>,
}

impl<N: Network> Pocket<N> {
    // A pocket with no slip.
    pub(super) fn empty(heap: Global) -> Pocket<N>
        ensures { in_hand result ≡ [] }
    {
        Pocket {
            slips: Vec::new(heap),
        }
    }

    // Makes room for one slip more.
    pub(super) fn make_room(&mut self) -> Result<(), AllocError>
        ensures same { in_hand self.new ≡ in_hand self.old }
        ensures room { is_ok result ≡ true → Room self.new }
    {
        self.slips.reserve(1)
    }

    // Keeps a slip.
    pub(super) fn keep(&mut self, slip: Slip<N>)
        requires { Room self.old }
        ensures { in_hand self.new ≡ in_hand self.old ++ ticket_on slip ∷ [] }
    {
        self.slips.push_reserved(slip);
    }

    // The place of the slip of a ticket, if it is in hand.
    fn place_of(&self, ticket: u32) -> Option<usize>
        ensures { result ≡ position (λ held. ticket == held) (in_hand self.now) }
    {
        self.slips
            .iter()
            .map(|slip| slip.ticket())
            .position(|held| ticket == held)
    }

    // Takes the slip of a ticket out, if it is in hand.
    pub(super) fn take(&mut self, ticket: u32) -> Option<Slip<N>>
        ensures { Taken self.old ticket result self.new }
    {
        let place = self.place_of(ticket)?;
        Some(self.slips.remove(place))
    }

    // Lets all slips go that are left, and answers how many there were, or the greatest number where there were more.
    pub(super) fn let_all_go(mut self, ledger: &mut Ledger<N>) -> u32
        requires { AllHeld (ledger_tally ledger.old) (in_hand self) }
        ensures { result ≡ min (length (in_hand self)) 4294967295 }
    {
        let count = u32::try_from(self.slips.len()).unwrap_or(u32::MAX);
        while let Some(slip) = self.slips.pop() {
            match slip.let_go(ledger) {
                Ok(()) => {}
                Err(_) => unreachable!(),
            }
        }
        let Pocket { slips } = self;
        slips.destroy_empty();
        count
    }
}
