//! Which networks a link table wires.
ghost use Rattle.std.specs.Prelude.{◌≡◌};
ghost use Rattle.doctor_warnings.specs.Tables.{are_two, is_own};

/// The networks that a table wires.
#[derive(Clone, Copy, Debug, PartialEq, Eq)]
pub enum Wiring {
    /// The only one.
    Alone,
    /// The old one and the new one.
    Both,
    /// The old one; the new one has another table.
    Old,
    /// The new one; the old one has another table.
    New,
}

impl Wiring {
    /// Whether the other of two networks has another table.
    pub(crate) fn is_own(self) -> bool
        ensures { result ≡ is_own self }
    {
        matches!(self, Wiring::Old | Wiring::New)
    }

    /// Whether there are two networks.
    pub(crate) fn are_two(self) -> bool
        ensures { result ≡ are_two self }
    {
        !matches!(self, Wiring::Alone)
    }
}
