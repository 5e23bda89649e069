//! What a lock asks of the value that it keeps.
ghost use Rattle.std.specs.Prelude.{◌≡◌, ℕ, List, Option, length};

/// A value with an origin, which never changes, and a list of entries, which only grows.
/// Each entry is owned by one seat number or by none.
pub trait History {
    type Origin;

    type Entry;

    /// What the value was made from. No turn changes it.
    ghost origin: { Self → Self.Origin };

    /// The list, to which a turn only adds, at its end.
    ghost entries: { Self → List Self.Entry };

    /// The number of the seat that owns an entry, if one does.
    ghost owner: { Self.Entry → Option ℕ };

    /// How many entries there are.
    fn count(&self) -> u64
        ensures { result ≡ length (entries self.now) };
}
