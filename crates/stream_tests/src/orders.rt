// Pieces of a text in every order.
use crate::bench::{Bench, passed, word_at};
use sequence::Place;
use std::test::Fail;

// Overlapping pieces of the text `abcdefghi`, each of three bytes.
const PIECES: [(u64, [u8; 3]); 4] = [(0, *b"abc"), (2, *b"cde"), (4, *b"efg"), (6, *b"ghi")];

// The end of the text once these pieces came, in whichever order.
fn end_of(came: &[bool; 4]) -> u64 {
    let mut end = 0;
    for ((place, bytes), came) in PIECES.iter().zip(came) {
        if *came && *place <= end {
            end = place.saturating_add(bytes.len() as u64);
        }
    }
    end
}

// Four pieces, chosen by the digits of a number to the base 4. With all of them the text holds a word, if there is one.
fn try_order(bench: &mut Bench, order: usize, word: Option<u64>) -> Result<(), Fail> {
    bench.stream.clear();
    bench.case = order;
    let mut came = [false; 4];
    for rest in [order, order / 4, order / 16, order / 64] {
        let piece = rest % 4;
        let (place, bytes) = PIECES[piece];
        let before = end_of(&came);
        came[piece] = true;
        let after = end_of(&came);
        match word {
            Some(found) if after > found => {
                bench.sends(Place::At(place), bytes, false, word_at(found, 0), bytes)?;
                bench.check_eq(&bench.stream.marks().shut, &true)?;
                bench.reaches(before, before)?;
            }
            _ => {
                bench.sends(Place::At(place), bytes, false, passed(0, 3, place), bytes)?;
                bench.reaches(after, after)?;
            }
        }
    }
    Ok(())
}

// All of them, with pieces that come twice and such as never come.
#[test]
fn any_order(rt: HostRuntime) -> Result<(), Fail> {
    let mut clean = Bench::new(&rt, b"\x01\x02zz")?;
    let mut wordy = Bench::new(&rt, b"\x01\x03fgh")?;
    for order in 0..256 {
        try_order(&mut clean, order, None)?;
        try_order(&mut wordy, order, Some(7))?;
    }
    Ok(())
}
