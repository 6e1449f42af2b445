// Bytes written into an output.
ghost use Rattle.register.specs.Writing.{put};
ghost use Rattle.std.specs.Prelude.{◌≡◌, ◌+◌, length, nat_le};

// Writes bytes at a place of an output, where there is room for all of them, and answers whether
// there is.
pub fn put_bytes(out: &mut [u8], at: usize, bytes: &[u8]) -> bool
    ensures fits { result ≡ nat_le (at + length bytes.now) (length out.old) }
    ensures writes { out.new ≡ put out.old at bytes.now }
{
    // Both halves have names, since what a half that `_` drops gives back is lost.
    if let Some((_before, rest)) = out.split_at_mut_checked(at)
        && let Some((part, _after)) = rest.split_at_mut_checked(bytes.len())
    {
        part.copy_from_slice(bytes);
        return true;
    }
    false
}
