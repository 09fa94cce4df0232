ghost use Rattle.std.specs.Prelude.{◌≡◌, ℕ};

/// What one rank puts for another: it names both. Its type has terms, for contracts alone.
pub trait Named {
    // the rank that it is from
    ghost source: { Self → ℕ };

    // the rank that it is for
    ghost target: { Self → ℕ };

    // it has the terms of the inboxes of its type
    ghost has_terms: { Self → Type 0 };

    /// The rank that it is from.
    fn src(&self) -> u32
        ensures { result ≡ source self.now };

    /// The rank that it is for.
    fn dst(&self) -> u32
        ensures { result ≡ target self.now };
}
