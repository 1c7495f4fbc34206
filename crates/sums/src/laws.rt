//! What the definition of the sum comes to.

ghost use Rattle.std.specs.Prelude.{◌≡◌, ◌≢◌, ◌*◌, ◌≤◌, ◌++◌, List, ℕ, bit_xor, length};
ghost use Rattle.sums.specs.Numbers.{IsBytes, number_of};
ghost use Rattle.sums.specs.Sums.{bit_steps, sum_of};

/// A sum is what one division leaves, inverted: that of all the bytes as one number, whose lowest 32
/// bits are inverted first. It does nothing.
pub fn sums_are_of_one_division()
    ensures { (bytes : List ℕ) → IsBytes bytes → sum_of bytes ≡ bit_xor
        (bit_steps (8 * length bytes) (bit_xor (number_of bytes) 0xffffffff)) 0xffffffff }
{}

/// Where no bytes but up to four neighbours are changed, the sum changes. It does nothing.
pub fn changes_of_four_bytes_show()
    ensures { (front old new back : List ℕ) → IsBytes old → IsBytes new
        → length old ≡ length new → length old ≤ 4 → old ≢ new
        → sum_of (front ++ old ++ back) ≢ sum_of (front ++ new ++ back) }
{}
