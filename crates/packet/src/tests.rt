// Worked examples, and packets cut, flipped and rewritten at every place.
use crate::checksum::sum;
use crate::edit::{Edit, Patch};
use crate::read::read;
use crate::rewrite::{header_checksum, rewrite};
use std::test::Fail;

// A packet with the payload `hello`, and one both of whose sums are zero.
const CAME: [u8; 45] =
    *b"\x45\x00\x00\x2d\x00\x00\x00\x00\x40\x06\xae\xc3\xc0\x00\x02\x01\x0a\x00\x00\x07\x0f\xa0\x23\x8c\x00\x00\x03\xe8\x00\x00\x07\xd0\x50\x18\x20\x00\x41\x09\x00\x00hello";

const ZERO: [u8; 42] =
    *b"\x45\x00\x00\x2a\xae\xc6\x00\x00\x40\x06\x00\x00\xc0\x00\x02\x01\x0a\x00\x00\x07\x0f\xa0\x23\x8c\x00\x00\x03\xe8\x00\x00\x07\xd0\x50\x18\x20\x00\x00\x00\x00\x00\x84\xde";

// The examples of RFC 1071 and of RFC 1624, which gives the one spelling of zero.
#[test]
fn sums(rt: HostRuntime) {
    assert_eq!(rt; sum(b"\x00\x01\xf2\x03\xf4\xf5\xf6\xf7"), 0xddf2);
    assert_eq!(rt; sum(b"\x00\x01\xf2"), 0xf201);
    let header =
        b"\x45\x00\x55\x55\x00\x00\x00\x00\x00\x00\xdd\x2f\x00\x00\x00\x00\x00\x00\x00\x00";
    assert_eq!(rt; header_checksum(header, 0x3285), 0);
}

#[test]
fn refuses_what_is_damaged(rt: HostRuntime) {
    assert!(rt; read(&CAME).is_ok());
    for n in 0..45 {
        assert!(rt; read(&CAME[..n]).is_err());
        let mut packet = CAME;
        packet[n] ^= 0xff;
        assert!(rt; read(&packet).is_err());
    }
}

// Rewrites a packet with another number, cut to a part of its payload, and reads it back.
fn passes(packet: &mut [u8], number: u32, start: usize, end: usize) -> Result<(), Fail> {
    let segment = read(packet)?;
    if segment.payload > start || start > end || end > packet.len() {
        return Err(Fail::new("no such part of the payload"));
    }
    let edit = Edit {
        number,
        start,
        end,
        ..Edit::none(&segment, packet.len())
    };
    let out = rewrite(packet, edit, None);
    let back = read(&packet[out])?;
    if back.number != number {
        let is = back.number;
        return Err(Fail::new(format_args!("number {is} in place of {number}")));
    }
    Ok(())
}

#[test]
fn rewrites_at_every_cut(rt: HostRuntime) -> Result<(), Fail> {
    for start in 40..46 {
        for end in start..46 {
            let mut packet = CAME;
            passes(&mut packet, 7, start, end)?;
            assert!(rt; &packet[start..] == &CAME[start..]);
        }
    }
    Ok(())
}

// A packet in which nothing changes keeps its spelling of zero, any other gets the one of a fresh sum.
#[test]
fn spells_zero(rt: HostRuntime) -> Result<(), Fail> {
    let mut packet = ZERO;
    packet[10] = 0xff;
    packet[11] = 0xff;
    packet[36] = 0xff;
    packet[37] = 0xff;
    let came = packet;
    passes(&mut packet, 1000, 40, 42)?;
    assert!(rt; packet == came);
    passes(&mut packet, 1001, 40, 42)?;
    passes(&mut packet, 1000, 40, 42)?;
    assert!(rt; packet == ZERO);
    Ok(())
}

#[test]
fn overwrites_a_part(rt: HostRuntime) -> Result<(), Fail> {
    let mut packet = CAME;
    let segment = read(&packet)?;
    assert!(rt; segment.payload == 40);
    let edit = Edit {
        start: 41,
        ..Edit::none(&segment, 45)
    };
    let patch = Patch::before(&packet, 43..44);
    packet[43] = b'!';
    let out = rewrite(&mut packet, edit, Some(patch));
    assert!(rt; out.start == 1 && out.end == 45 && read(&packet[out]).is_ok());
    Ok(())
}
