// Tables of words.
ghost use Rattle.std.specs.Prelude.{◌≡◌, ℕ, List};

/// A table of words: what can stand at one place of a line.
pub trait Table {
    /// What the words stand for.
    type Value: Copy + 'static;

    /// The word of a value.
    ghost word: { Self.Value → List ℕ };

    /// The values of the table.
    ghost values: { List Self.Value };

    /// The bytes of a value's word.
    fn text(value: Self::Value) -> &'static [u8]
        ensures { result.now ≡ word value };

    /// The values of the table.
    fn all() -> &'static [Self::Value]
        ensures { result.now ≡ values };
}
