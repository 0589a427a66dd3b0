//! What stands after a prefix, and how many lines bytes have.

ghost use Rattle.std.specs.Prelude.{◌≡◌, ℕ, ◌≤◌, List, ◌++◌, length};
ghost use Rattle.row_reading.specs.Found.{Finds};
ghost use Rattle.row_reading.specs.Counting.{line_count};

/// What stands after a prefix of the bytes.
pub fn after_prefix<'a>(bytes: &'a [u8], prefix: &[u8]) -> Option<&'a [u8]>
    ensures { Finds (λ r. r.now) (λ (rest : List ℕ). bytes.now ≡ prefix.now ++ rest) result }
{
    bytes.strip_prefix(prefix)
}

/// How many lines end in the bytes.
pub fn line_count(bytes: &[u8]) -> u64
    ensures count { result ≡ line_count bytes.now }
    ensures bound { result ≤ length bytes.now }
{
    bytes.iter().filter(|b| **b == b'\n').count() as u64
}
