//! A law of numbers as texts spell them. The function does nothing.

ghost use Rattle.std.specs.Prelude.{◌≡◌, ℕ, ℤ, List, Some};
ghost use Rattle.fs_inputs.specs.Numbers.{number_in};

/// Two texts that spell one number are the same text, so that no index of an array stands twice under
/// different names.
pub fn a_number_has_one_spelling()
    ensures { (s t : List ℕ) (z : ℤ) → number_in s ≡ Some z → number_in t ≡ Some z → s ≡ t }
{}
