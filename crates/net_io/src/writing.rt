//! What it is to be a sink that takes bytes: the trait, with its failure, and the writing of all of a list of bytes.

ghost use Rattle.std.specs.Prelude.{◌≡◌, ℕ, ◌<◌, ◌≤◌, ◌++◌, List, Option, IfOk, OnOk, OnErr, length, take, option_map};
ghost use Rattle.net_io.specs.Faults.{Counts};
ghost use Rattle.net_io.specs.Sink.{TookPrefix};

/// A write took nothing, and a fault was counted.
#[derive(Clone, Copy, Debug, PartialEq, Eq)]
pub struct Failed;

/// Something that takes bytes, one piece after another. A count of faults never falls.
pub trait Sink {
    /// The bytes that it took so far, where they are told.
    ghost taken: { Self → Option (List ℕ) };

    /// How often a write has failed.
    ghost faults: { Self → ℕ };

    /// Takes the first bytes of the piece, and answers how many: at least one of a piece that isn't empty.
    ///
    /// `Failed` took none, and comes only where the count of faults rose.
    fn write(&mut self, piece: &[u8]) -> Result<usize, Failed>
        ensures bound { IfOk result (λ n. n ≤ length piece.now) }
        ensures some { IfOk result (λ n. 0 < length piece.now → 0 < n) }
        ensures took { IfOk result (λ n. taken self.new ≡ option_map (λ bytes. bytes ++ take n piece.now) (taken self.old)) }
        ensures none { OnErr result (taken self.new ≡ taken self.old) }
        ensures cause { Counts (faults self.old) (faults self.new) result };
}

/// Writes all the bytes.
///
/// On `Failed` the sink took a prefix of them. It comes only where the count of faults rose.
pub fn write_all<O: Sink>(sink: &mut O, bytes: &[u8]) -> Result<(), Failed>
    ensures all { OnOk result (O.taken sink.new ≡ option_map (λ taken. taken ++ bytes.now) (O.taken sink.old)) }
    ensures prefix { OnErr result (TookPrefix (O.taken sink.old) bytes.now (O.taken sink.new)) }
    ensures cause { Counts (O.faults sink.old) (O.faults sink.new) result }
{
    let mut at = 0;
    while at < bytes.len() {
        let rest = &bytes[at..];
        at += sink.write(rest)?;
    }
    Ok(())
}
