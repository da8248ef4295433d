// Bytes are cut at a place.
ghost use Rattle.std.specs.Prelude.{◌≡◌, take, drop};

/// The first bytes, that many at most, and the others.
pub fn cut_at(bytes: &[u8], most: usize) -> (&[u8], &[u8])
    ensures first { result.0.now ≡ take most bytes.now }
    ensures others { result.1.now ≡ drop most bytes.now }
{
    if bytes.len() <= most {
        return (bytes, &[]);
    }
    bytes.split_at(most)
}
