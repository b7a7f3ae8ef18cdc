// What a ledger keeps of each arc.
ghost use Rattle.std.specs.Prelude.{◌≡◌, ℕ, ◌-◌, ◌<◌, true, false, if◌then◌else◌, slice_index_or};
ghost use Rattle.network.specs.Lists.{among, distinct};
ghost use Rattle.ledger.specs.Rows.{no_use};

// Whether an arc is closed, and how much is sold on it.
#[derive(Clone, Copy, Default)]
pub struct ArcUse {
    pub closed: bool,
    pub sold: u8,
}

impl ArcUse {
    // What is free of a capacity: nothing where the arc is closed, else what is not sold.
    pub(super) fn free_of(&self, capacity: u8) -> u8
        ensures { result ≡ (if self.now.closed then 0 else capacity - self.now.sold) }
    {
        if self.closed {
            return 0;
        }
        capacity.saturating_sub(self.sold)
    }
}

// Changes what is sold on each arc of a route, on which no arc stands twice.
pub(super) fn change_sold<F: Fn(u8) -> u8>(arcs: &mut [ArcUse; 256], route: &[u8], change: F)
    requires apart { distinct route.now ≡ true }
    requires may { (arc : ℕ) → arc < 256 → among arc route.now ≡ true → F.pre change (slice_index_or arcs.old arc no_use).sold }
    ensures changed { (arc : ℕ) → among arc route.now ≡ true → F.post change (slice_index_or arcs.old arc no_use).sold (slice_index_or arcs.new arc no_use).sold }
    ensures others { (arc : ℕ) → among arc route.now ≡ false → slice_index_or arcs.new arc no_use ≡ slice_index_or arcs.old arc no_use }
    ensures closed { (arc : ℕ) → (slice_index_or arcs.new arc no_use).closed ≡ (slice_index_or arcs.old arc no_use).closed }
{
    for number in route {
        let place = usize::from(*number);
        arcs[place].sold = change(arcs[place].sold);
    }
}
