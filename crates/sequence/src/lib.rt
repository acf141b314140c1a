// Sequence numbers of 32 bits, and the places of a stream for which they stand.
#![tactic(auto)]

ghost use Rattle.std.specs.Prelude.{◌≡◌, ◌≤◌, min};
ghost use Rattle.sequence.specs.Places.{before, fitting, number_of, place_after, place_of};

use std::cmp::Ordering;

pub mod laws;

// Half the circle of numbers.
const HALF: u32 = 0x8000_0000;

// Where places end: at 100 Gbit/s a stream gets there after 23 years.
pub const PLACES: u64 = 0x8000_0000_0000_0000;

// A place of a stream: its first byte stands at 0. A number may also stand for a place so many below 0.
#[derive(Clone, Copy, PartialEq, Eq, Debug)]
pub enum Place {
    Below(u32),
    At(u64),
}

impl Place {
    // The place after `n` bytes from this one on: none where that lies below 0 or does not fit.
    pub fn after(self, n: usize) -> Option<u64>
        ensures { result ≡ fitting (place_after self n) }
    {
        let n = n as u64;
        match self {
            Place::Below(m) => n.checked_sub(u64::from(m)),
            Place::At(i) => i.checked_add(n),
        }
    }
}

// The number of a place, where place 0 has the number `first`.
pub fn number_of(first: u32, place: u64) -> u32
    ensures { result ≡ number_of first place }
{
    first.wrapping_add((place % 0x1_0000_0000) as u32)
}

// So many places before a place.
fn before(n: u32, place: u64) -> Place
    ensures { result ≡ before n place }
{
    let n = u64::from(n);
    if n <= place {
        Place::At(place - n)
    } else {
        Place::Below((n - place) as u32)
    }
}

// The place congruent to a number that lies nearest `low`, of two equally near the higher.
// A `low` past the end of places counts as that end, so that every place fits.
#[tactic(auto, unfolding(crate::specs::Places::place_of))]
pub fn place_of(first: u32, low: u64, number: u32) -> Place
    ensures place { result ≡ place_of first (min low 9223372036854775808) number }
    ensures within { low ≤ 9223372036854775808 → result ≡ place_of first low number }
{
    let low = low.min(PLACES);
    let ahead = number.wrapping_sub(number_of(first, low));
    match ahead.cmp(&HALF) {
        Ordering::Less | Ordering::Equal => Place::At(low + u64::from(ahead)),
        Ordering::Greater => before(ahead.wrapping_neg(), low),
    }
}

#[cfg(test)]
mod tests {
    use crate::{Place, number_of, place_of};

    // first, low, number, and the place that it stands for
    const TABLE: [(u32, u64, u32, Place); 8] = [
        (1000, 0, 1007, Place::At(7)),
        (0xffff_fff0, 0, 5, Place::At(21)),
        (0, 0x1_0000_0005, 3, Place::At(0x1_0000_0003)),
        (0, 0x1_0000_0005, 0xffff_ffff, Place::At(0xffff_ffff)),
        (0, 0, 0x8000_0000, Place::At(0x8000_0000)),
        (0, 0x8000_0000, 0, Place::At(0x1_0000_0000)),
        (0, 0, 0x8000_0001, Place::Below(0x7fff_ffff)),
        (0, 5, 0xffff_ffff, Place::Below(1)),
    ];

    #[test]
    fn numbers_stand_for_places(rt: HostRuntime) {
        for (first, low, number, place) in TABLE {
            assert_eq!(rt; place_of(first, low, number), place);
            if let Place::At(i) = place {
                assert_eq!(rt; number_of(first, i), number);
            }
        }
        assert!(rt; Place::Below(3).after(2).is_none());
        assert!(rt; Place::Below(3).after(5) == Some(2));
        assert!(rt; Place::At(u64::MAX).after(1).is_none());
    }
}
