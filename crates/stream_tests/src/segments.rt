// Segments that overlap, reach out of the window, end the stream or complete a word.
use crate::bench::{Bench, passed, passed_fin, word_at};
use sequence::Place;
use std::test::Fail;
use stream::Refused;

#[test]
fn first_byte_stays(rt: HostRuntime) -> Result<(), Fail> {
    let mut bench = Bench::new(&rt, b"\x01\x02zz")?;
    bench.sends(Place::At(2), *b"cd", false, passed(0, 2, 2), *b"cd")?;
    bench.reaches(0, 0)?;
    assert_eq!(rt; bench.stream.differs(Place::At(0), b"xxcd"), false);
    assert_eq!(rt; bench.stream.differs(Place::At(0), b"xxcx"), true);
    bench.sends(Place::At(0), *b"xxxx", false, passed(0, 4, 0), *b"xxcd")?;
    bench.reaches(4, 4)?;
    bench.sends(Place::At(1), *b"yyyyy", false, passed(0, 5, 1), *b"xcdyy")?;
    bench.reaches(6, 6)
}

#[test]
fn below_place_zero(rt: HostRuntime) -> Result<(), Fail> {
    let mut bench = Bench::new(&rt, b"\x01\x02zz")?;
    bench.sends(Place::Below(2), *b"abcd", false, passed(2, 4, 0), *b"abcd")?;
    bench.sends(
        Place::Below(3),
        *b"abcxx",
        false,
        passed(3, 5, 0),
        *b"abccd",
    )?;
    bench.reaches(2, 2)?;
    assert_eq!(rt; bench.stream.differs(Place::Below(1), b"xcx"), true);
    assert_eq!(rt; bench.stream.differs(Place::Below(1), b"xcd"), false);
    // nothing is left, and a FIN below place 0, or where a byte is known, is not kept
    bench.sends(Place::Below(5), *b"ab", false, Ok(None), *b"ab")?;
    bench.sends(Place::Below(3), *b"ab", true, Ok(None), *b"ab")?;
    bench.sends(Place::Below(2), *b"ab", true, Ok(None), *b"ab")
}

#[test]
fn window_moves(rt: HostRuntime) -> Result<(), Fail> {
    let mut bench = Bench::new(&rt, b"\x01\x02zz")?;
    bench.sends(
        Place::At(0),
        [5; 1030],
        false,
        passed(0, 1024, 0),
        [5; 1030],
    )?;
    bench.reaches(1024, 1024)?;
    bench.sends(Place::At(1024), [6], false, Ok(None), [6])?;
    bench.stream.acknowledge(Place::Below(9));
    assert_eq!(rt; bench.stream.marks().low, 0);
    bench.stream.acknowledge(Place::At(1000));
    assert_eq!(rt; bench.stream.marks().low, 1000);
    bench.sends(
        Place::At(1022),
        [6; 5],
        false,
        passed(0, 5, 1022),
        [5, 5, 6, 6, 6],
    )?;
    bench.reaches(1027, 1027)?;
    // what is acknowledged is left off, and the ring's cells are taken anew
    bench.sends(
        Place::At(998),
        [7; 4],
        false,
        passed(2, 4, 1000),
        [7, 7, 5, 5],
    )?;
    bench.sends(Place::At(2023), [8; 2], false, passed(0, 1, 2023), [8; 2])?;
    // never above the end of the text
    bench.stream.acknowledge(Place::At(5000));
    assert_eq!(rt; bench.stream.marks().low, 1027);
    bench.stream.acknowledge(Place::At(3));
    assert_eq!(rt; bench.stream.marks().low, 1027);
    Ok(())
}

#[test]
fn fin_is_last(rt: HostRuntime) -> Result<(), Fail> {
    let mut bench = Bench::new(&rt, b"\x01\x02zz")?;
    // FIN first: what comes at it or after it is left off, and no other is kept
    bench.sends(Place::At(4), *b"", true, passed_fin(0, 0, 4, Some(4)), *b"")?;
    bench.sends(Place::At(4), *b"e", false, Ok(None), *b"e")?;
    bench.sends(Place::At(2), *b"cde", true, passed(0, 2, 2), *b"cde")?;
    bench.reaches(0, 0)?;
    bench.sends(Place::At(0), *b"ab", true, passed(0, 2, 0), *b"ab")?;
    bench.reaches(4, 5)?;
    bench.sends(
        Place::At(3),
        *b"d",
        true,
        passed_fin(0, 1, 3, Some(4)),
        *b"d",
    )?;
    assert!(rt; bench.stream.marks().fin == Some(4));
    // bytes first: no FIN before their end
    bench.stream.clear();
    bench.sends(Place::At(0), *b"abcdef", false, passed(0, 6, 0), *b"abcdef")?;
    bench.sends(Place::At(2), *b"cd", true, passed(0, 2, 2), *b"cd")?;
    bench.sends(Place::At(4), *b"", true, Ok(None), *b"")?;
    bench.reaches(6, 6)?;
    bench.sends(Place::At(6), *b"", true, passed_fin(0, 0, 6, Some(6)), *b"")?;
    bench.reaches(6, 7)
}

#[test]
fn words_across(rt: HostRuntime) -> Result<(), Fail> {
    let mut bench = Bench::new(&rt, b"\x02\x01z\x03aab")?;
    // byte by byte; and once shut, nothing more is done
    for place in 0..3 {
        bench.sends(Place::At(place), *b"a", false, passed(0, 1, place), *b"a")?;
    }
    bench.sends(Place::At(3), *b"b", true, word_at(3, 1), *b"b")?;
    bench.sends(Place::At(0), *b"xy", false, Err(Refused::Shut), *b"xy")?;
    bench.stream.acknowledge(Place::At(2));
    assert_eq!(rt; bench.stream.marks().low, 0);
    bench.reaches(3, 3)?;
    // over a gap that is filled, by the word's byte and by another
    for (byte, answer) in [(b'a', word_at(3, 1)), (b'c', passed(0, 1, 2))] {
        bench.stream.clear();
        bench.sends(Place::At(3), *b"b", false, passed(0, 1, 3), *b"b")?;
        bench.sends(Place::At(0), *b"xa", false, passed(0, 2, 0), *b"xa")?;
        bench.sends(Place::At(2), [byte], false, answer, [byte])?;
    }
    bench.reaches(4, 4)?;
    // what counts is the known byte: the word is not passed on as it came, and is found though it did not come so
    bench.stream.clear();
    bench.sends(Place::At(1), *b"c", false, passed(0, 1, 1), *b"c")?;
    bench.sends(Place::At(0), *b"aab", false, passed(0, 3, 0), *b"acb")?;
    bench.sends(Place::At(4), *b"a", false, passed(0, 1, 4), *b"a")?;
    bench.sends(Place::At(3), *b"axb", false, word_at(5, 1), *b"axb")
}
