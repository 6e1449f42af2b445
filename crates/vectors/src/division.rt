// The division hash of messages with known answers.
use hashes::division::division_hash;
use std::io;
use std::io::Print;
use tally::Tally;

// Messages worked by hand, or with the definition alone.
pub fn worked(rt: &impl Print, tally: &mut Tally) -> io::Result<()> {
    tally.word(rt, "division, p 1B, empty", division_hash(0x1B, &[]), 0x1B)?;
    tally.word(rt, "division, p 1B, 00", division_hash(0x1B, &[0]), 0x1B00)?;
    tally.word(rt, "division, p 1B, 01", division_hash(0x1B, &[1]), 0x1B1B)?;
    // x^64 divides x^64 times any message.
    tally.word(rt, "division, p 0, 61 62", division_hash(0, b"ab"), 0)?;
    let ones = division_hash(0xFFFFFFFFFFFFFFFF, &[]);
    tally.word(rt, "division, p all ones, empty", ones, 0xFFFFFFFFFFFFFFFF)
}

// A checksum that starts from zero leaves the leading one out. It is the sum of two hashes, that of the message and that of as
// many zero bytes, since the leading one alone is what the two polynomials have in common.
fn checksum(p: u64, message: &[u8; 9]) -> u64 {
    division_hash(p, message) ^ division_hash(p, &[0; 9])
}

// A checksum that takes each byte's low bit first, starts from ones and ends with a sum with ones. It is the one above of the
// message with each byte's bits reversed and the first eight bytes inverted, itself reversed and inverted.
fn reflected_checksum(p: u64, message: &[u8; 9]) -> u64 {
    let mut reflected = *message;
    for (i, byte) in reflected.iter_mut().enumerate() {
        *byte = byte.reverse_bits() ^ if i < 8 { 0xFF } else { 0 };
    }
    !checksum(p, &reflected).reverse_bits()
}

// The check values that the catalogue of checksums has over the bytes 123456789.
pub fn checksums(rt: &impl Print, tally: &mut Tally) -> io::Result<()> {
    let ecma = checksum(0x42F0E1EBA9EA3693, b"123456789");
    tally.word(rt, "CRC-64/ECMA-182, 123456789", ecma, 0x6C40DF5F0B497347)?;
    let iso = reflected_checksum(0x1B, b"123456789");
    tally.word(rt, "CRC-64/GO-ISO, 123456789", iso, 0xB90956C775A41001)
}

// Writes i modulo 251 at each place i.
pub fn count_up(message: &mut [u8]) {
    for (i, byte) in message.iter_mut().enumerate() {
        *byte = (i % 251) as u8;
    }
}

// A message of 60,000 bytes.
pub fn long(rt: &impl Print, tally: &mut Tally) -> io::Result<()> {
    let mut message = [0u8; 60000];
    count_up(&mut message);
    let hash = division_hash(0x42F0E1EBA9EA3693, &message);
    tally.word(
        rt,
        "division, p 42F0E1EBA9EA3693, 60000 bytes",
        hash,
        0x2214D6AFF2869A36,
    )
}
