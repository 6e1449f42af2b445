// Words from bytes, highest byte first.
ghost use Rattle.hashes.specs.Word.{word};
ghost use Rattle.std.specs.Prelude.{◌≡◌, length, take, drop, if◌then◌else◌, Some, None, nat_eq};

// The word that eight bytes write; none where there are more or fewer bytes.
pub fn word_of(bytes: &[u8]) -> Option<u64>
    ensures { result ≡ (if nat_eq (length bytes.now) 8 then Some (word bytes.now) else None) }
{
    let bytes = <[u8; 8]>::try_from(bytes).ok()?;
    Some(u64::from_be_bytes(bytes))
}

// The two words that sixteen bytes write; none where there are more or fewer bytes.
pub(crate) fn two_words(bytes: &[u8]) -> Option<(u64, u64)>
    ensures { result
        ≡ (if nat_eq (length bytes.now) 16 then Some (word (take 8 bytes.now), word (drop 8 bytes.now)) else None) }
{
    let (first, rest) = bytes.split_first_chunk::<8>()?;
    let second = word_of(rest)?;
    Some((u64::from_be_bytes(*first), second))
}
