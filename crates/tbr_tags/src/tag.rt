//! Tags, by what they mean.
ghost use Rattle.std.specs.Prelude.{◌≡◌, ◌↔◌, IsTrue, Bool, true};

/// What text can be under. A contract sees a tag by what it means.
///
/// Two tags are equal exactly where they mean the same, and a copy equals its source.
pub trait Tag: Eq + Clone + Drop {
    /// What a tag means. No value of this type is ever made: only contracts speak of it.
    type Meaning;

    ghost meaning: { Self → Self.Meaning };

    // Whether two meanings are one.
    ghost same: { Self.Meaning → Self.Meaning → Bool };

    ghost tells: { (a b : Self.Meaning) → IsTrue (same a b) ↔ (a ≡ b) };

    ghost equal_by_meaning: { (a b : Self) → IsTrue (Self.eq a b) ↔ (meaning a ≡ meaning b) };

    ghost copies_equal: { (a b : Self) → Self.is_clone a b → Self.eq a b ≡ true };
}
