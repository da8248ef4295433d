// Kinds of bytes, and the longest runs of them.
ghost use Rattle.std.specs.Prelude.{◌≡◌, ℕ, List, ◌≤◌, length, drop, take};
ghost use Rattle.std.specs.List.{prefix_len};
ghost use Rattle.std.specs.Option.{option_copied};
ghost use Rattle.cf_filter.specs.Tokens.{passes as passes_of, strip_at, unspaced as unspaced_of, run, past};

/// Kinds of bytes. A token is a longest run of bytes of one class.
#[derive(Clone, Copy, Debug, PartialEq, Eq)]
pub enum Class {
    Space,
    /// Letters a to z.
    Letter,
    /// What a name goes on with: letters a to z, digits and `_`.
    Name,
    /// The characters of operators.
    Operator,
    /// What a value is written with: digits, letters, `.` and `/`.
    Value,
    Digit,
    /// Hexadecimal digits of either case.
    Hex,
    /// Printed ASCII and the space: 32 to 126.
    Text,
    /// All bytes but this one.
    Except(u8),
}

impl Class {
    /// Whether the byte is of the class.
    pub fn passes(self, byte: u8) -> bool
        ensures { result ≡ passes_of self byte }
    {
        match self {
            Class::Space => byte == b' ',
            Class::Letter => byte >= b'a' && byte <= b'z',
            Class::Name => (byte >= b'a' && byte <= b'z')
                || (byte >= b'0' && byte <= b'9')
                || byte == b'_',
            Class::Operator => byte == b'=' || byte == b'!' || byte == b'<' || byte == b'>',
            Class::Value => {
                (byte >= b'0' && byte <= b'9')
                    || (byte >= b'a' && byte <= b'z')
                    || (byte >= b'A' && byte <= b'Z')
                    || byte == b'.'
                    || byte == b'/'
            }
            Class::Digit => byte >= b'0' && byte <= b'9',
            Class::Hex => {
                (byte >= b'0' && byte <= b'9')
                    || (byte >= b'a' && byte <= b'f')
                    || (byte >= b'A' && byte <= b'F')
            }
            Class::Text => byte >= 32 && byte <= 126,
            Class::Except(other) => byte != other,
        }
    }

    /// How many bytes of the class stand at the front.
    pub fn run_len(self, bytes: &[u8]) -> usize
        ensures len { result ≡ prefix_len (passes_of self) bytes.now }
        ensures bound { result ≤ length bytes.now }
    {
        for (i, b) in bytes.iter().enumerate() {
            if !self.passes(*b) {
                return i;
            }
        }
        bytes.len()
    }

    /// The longest run of the class at the front, and what follows it.
    pub fn split(self, bytes: &[u8]) -> (&[u8], &[u8])
        ensures run { result.0.now ≡ run self bytes.now }
        ensures rest { result.1.now ≡ past self bytes.now }
    {
        bytes.split_at(self.run_len(bytes))
    }
}

/// What comes after the spaces at the front.
pub fn unspaced(bytes: &[u8]) -> &[u8]
    ensures { result.now ≡ unspaced_of bytes.now }
{
    Class::Space.split(bytes).1
}

/// What comes after the prefix.
pub fn strip<'a>(bytes: &'a [u8], prefix: &[u8]) -> Option<&'a [u8]>
    ensures { option_copied result ≡ strip_at prefix.now bytes.now }
{
    let size = prefix.len().min(bytes.len());
    let (front, rest) = bytes.split_at(size);
    if front != prefix {
        return None;
    }
    Some(rest)
}
