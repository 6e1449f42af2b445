// Keys and key buffers, put together of words.

// The polynomial x^64 + 1B.
pub const POLYNOMIAL: u64 = 0x1B;

// The pad at the end of a key buffer.
const PAD: u64 = 0x0102030405060708;

// The bytes of some words, highest first; zeros after them.
pub fn bytes_of<const N: usize>(words: &[u64]) -> [u8; N] {
    let mut bytes = [0; N];
    let (places, _) = bytes.as_chunks_mut::<8>();
    for (place, word) in places.iter_mut().zip(words) {
        *place = word.to_be_bytes();
    }
    bytes
}

pub fn division() -> [u8; 16] {
    bytes_of(&[POLYNOMIAL, PAD])
}

// The first state is 1.
pub fn toeplitz() -> [u8; 24] {
    bytes_of(&[POLYNOMIAL, 1, PAD])
}

// The point is 2.
pub fn evaluation() -> [u8; 16] {
    bytes_of(&[2, PAD])
}
