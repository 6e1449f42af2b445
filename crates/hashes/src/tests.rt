// Words and hashes worked by hand.
use crate::division::division_hash;
use crate::word::word_of;

#[test]
fn words(rt: HostRuntime) {
    assert_eq!(rt;
        word_of(&[0x01, 0, 0, 0, 0, 0, 0, 0x1B]),
        Some(0x010000000000001B)
    );
    assert_eq!(rt; word_of(&[0; 7]), None);
    assert_eq!(rt; word_of(&[0; 9]), None);
}

#[test]
fn leading_one(rt: HostRuntime) {
    // A zero byte more is another message.
    assert_eq!(rt; division_hash(0x1B, &[]), 0x1B);
    assert_eq!(rt; division_hash(0x1B, &[0]), 0x1B00);
}
