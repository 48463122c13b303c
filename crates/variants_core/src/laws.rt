//! Laws of the definitions. Each function here is a statement; its body is empty.

ghost use Rattle.std.specs.Prelude.{List, ℕ, Err};
ghost use Rattle.net_io.specs.Files.{Told};
ghost use Rattle.job_core.specs.declared.stop.Stop.{Stop};
ghost use Rattle.job_core.specs.Accepted.{MayAlwaysStop};
ghost use Rattle.variants_core.specs.Accepted.{IsAccepted};
ghost use Rattle.variants_core.specs.Job.{Does};

/// Variants of which nothing is refused, too long, too many or absent are stopped by nothing but a read that fails and want of
/// memory: so the causes of a stop are all causes there are.
pub fn accepted_variants_are_done()
    ensures { (words : List (List ℕ)) (t : Told) (s : Stop) → IsAccepted words t → Does words t (Err s) → MayAlwaysStop s }
{}
