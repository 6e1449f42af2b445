// Answers worked by hand. A refusal is the top bit, the number in the next fifteen, and the place
// in the last 48.
use crate::{waq_check, waq_hash, waq_make, waq_open, waq_seal};

// Evaluation at the point 1, with a pad of zeros.
const BUFFER: [u8; 16] = [0, 0, 0, 0, 0, 0, 0, 1, 0, 0, 0, 0, 0, 0, 0, 0];

// Zone 7 with the name A, and the seal field.
const IMAGE: [u8; 18] = [
    0x01, 0x00, 0x03, 0x00, 0x07, 0x41, 0x53, 0x00, 0x09, 0x03, 0x01, 0x00, 0x03, 0x00, 0x07, 0x41,
    0x80, 0x01,
];

#[test]
fn made(rt: HostRuntime) {
    let mut out = [0xFF; 19];
    let made = waq_make(3, b"zone 7 \"A\"", &mut { BUFFER }, &mut out);
    assert_eq!(rt; made, 18);
    assert!(rt; out.starts_with(&IMAGE) && out.ends_with(&[0]));
    let text = b"zone 7 \"A\"\n\nzone 07 \"B\"\n";
    let refused = waq_make(3, text, &mut { BUFFER }, &mut out);
    assert_eq!(rt; refused, 0x800B_0000_0300_0005);
    let cut = waq_make(3, b"", &mut { BUFFER }, &mut [0xFF; 11]);
    assert_eq!(rt; cut, 0x8032_0000_0000_0000);
    assert_eq!(rt;
        waq_make(0, b"", &mut { BUFFER }, &mut out),
        0x8004_0000_0000_0000
    );
}

#[test]
fn checked(rt: HostRuntime) {
    assert_eq!(rt; waq_check(3, &mut { BUFFER }, &IMAGE), 1);
    let mut image = IMAGE;
    image[17] = 0;
    assert_eq!(rt; waq_check(3, &mut { BUFFER }, &image), 0);
    // Without the seal field, the image does not go on at offset 6.
    assert_eq!(rt;
        waq_check(3, &mut { BUFFER }, &IMAGE[..6]),
        0x8028_0000_0000_0006
    );
    assert_eq!(rt; waq_check(1, &mut [0; 15], &IMAGE), 0x8001_0000_0000_0000);
}

#[test]
fn sealed(rt: HostRuntime) {
    let mut seal = [0xFF; 9];
    let mut input = *b"\x03\0\0\0\0\0\0\0\x01\0\0\0\0\0\0\0\0zone 7 \"A\"";
    assert_eq!(rt; waq_seal(&mut input, &mut seal), 18);
    assert_eq!(rt; seal, [0x01, 0, 0x03, 0, 0x07, 0x41, 0x80, 0x01, 0xFF]);
    let mut input = *b"\x03\0\0\0\0\0\0\0\x01\0\0\0\0\0\0\0\0zone 7 \"A\\q\"";
    assert_eq!(rt; waq_seal(&mut input, &mut seal), 0x800C_0000_0100_000A);
    assert_eq!(rt; waq_seal(&mut [], &mut seal), 0x8004_0000_0000_0000);
}

#[test]
fn opened(rt: HostRuntime) {
    let key = [0, 0, 0, 0, 0, 0, 0, 0x1B];
    assert_eq!(rt; waq_open(1, 0, &key), 0);
    assert_eq!(rt; waq_open(1, 1, &[0; 8]), 3);
    assert_eq!(rt; waq_open(4, 0, &key), 4);
    assert_eq!(rt; waq_hash(1, 1, &key, &[0x01], 1), 0x1B1B);
    assert_eq!(rt; waq_hash(1, 0, &[0; 8], &[0x01], 0), 0);
}
