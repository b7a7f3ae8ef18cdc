// Arc numbers in a row, as a partial route or a circuit has them: at most 15, in memory of a fixed size.
ghost use Rattle.std.specs.Prelude.{◌≡◌, ◌-◌, ◌&&◌, [], ◌++◌, length, nat_le, nat_lt, replicate, Some, None, if◌then◌else◌};
ghost use Rattle.network.specs.Lists.{all_of};
ghost use Rattle.network.specs.Numbers.{with_number};

use std::marker::Model;

// At most 15 arc numbers, in order. Contracts see them as a list. The count stands beside places of a fixed number, since the
// lines of a lent notebook and the rows of a ledger are `Copy` and take no heap memory.
#[derive(Clone, Copy)]
pub struct ArcNumbers {
    // the numbers, and 0 in the places that hold none
    places: [u8; 15],
    count: u8,
}

impl Model for ArcNumbers {
    ghost use Rattle.std.specs.Prelude.{List, ℕ};

    ghost Value = { List ℕ };

    ghost use Rattle.network.specs.Numbers.{numbers_in, IsPadded, padded, padded_back};

    ghost view = { numbers_in };

    ghost invariant = { IsPadded };

    ghost inverse = { padded };

    ghost inverse_ok = { padded_back };
}

impl ArcNumbers {
    // No numbers.
    pub fn new() -> ArcNumbers
        ensures { result ≡ [] }
    {
        ArcNumbers {
            places: [0; 15],
            count: 0,
        }
    }

    // The numbers of a row, or none where there are more than 15 or one is above 255.
    pub fn of(row: &[u32]) -> Option<ArcNumbers>
        ensures { result ≡ (if nat_le (length row.now) 15 && all_of (λ i. nat_lt i 256) row.now then Some row.now else None) }
    {
        if row.len() > 15 {
            return None;
        }
        let mut places = [0; 15];
        for (place, number) in row.iter().enumerate() {
            places[place] = u8::try_from(*number).ok()?;
        }
        Some(ArcNumbers {
            places,
            count: row.len() as u8,
        })
    }

    // The numbers in order.
    pub fn as_slice(&self) -> &[u8]
        ensures { result.now ≡ self.now }
    {
        &self.places[..usize::from(self.count)]
    }

    // How many there are.
    pub fn len(&self) -> u8
        ensures { result ≡ length self.now }
    {
        self.count
    }

    // The numbers in 15 places, 0 in those after the last number.
    pub fn places(&self) -> [u8; 15]
        ensures { result ≡ self.now ++ replicate (15 - length self.now) 0 }
    {
        self.places
    }

    // These numbers and one more, or none where there are 15 already.
    pub fn with(self, number: u8) -> Option<ArcNumbers>
        ensures { result ≡ with_number self number }
    {
        if self.count >= 15 {
            return None;
        }
        let mut places = self.places;
        places[usize::from(self.count)] = number;
        Some(ArcNumbers {
            places,
            count: self.count + 1,
        })
    }
}
