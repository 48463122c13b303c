//! Laws of the definitions. Each function here is a statement; its body is empty.

ghost use Rattle.std.specs.Prelude.{◌≡◌, List, ℕ, Err};
ghost use Rattle.net_io.specs.Files.{Told};
ghost use Rattle.net_types.specs.declared.config.Loaded.{Loaded};
ghost use Rattle.ask_query.specs.declared.refusal.QuestionFail.{QuestionFail};
ghost use Rattle.ask_query.specs.Reading.{questions_of};
ghost use Rattle.job_core.specs.declared.stop.Stop.{Stop};
ghost use Rattle.job_core.specs.Accepted.{MayAlwaysStop};
ghost use Rattle.window_core.specs.declared.base.Base.{Base};
ghost use Rattle.window_core.specs.Accepted.{IsAccepted};
ghost use Rattle.window_core.specs.Job.{Does, asked_network, window_network};

/// A rollout of which nothing is refused, too long, too many or absent is stopped by nothing but a read that fails and want of
/// memory: so the causes of a stop are all causes there are.
pub fn accepted_rollouts_are_done()
    ensures { (words : List (List ℕ)) (t : Told) (s : Stop) → IsAccepted words t → Does words t (Err s) → MayAlwaysStop s }
{}

/// Questions are refused alike on the network before all changes, whether the names of the changes are numbered too or not: so the
/// second reading of a rollout refuses none.
pub fn questions_are_refused_alike()
    ensures first { (base : Base) (changes : List Loaded) (bytes : List ℕ) (e : QuestionFail)
        → questions_of (asked_network base).old bytes ≡ Err e → questions_of (window_network base changes).old bytes ≡ Err e }
    ensures second { (base : Base) (changes : List Loaded) (bytes : List ℕ) (e : QuestionFail)
        → questions_of (window_network base changes).old bytes ≡ Err e → questions_of (asked_network base).old bytes ≡ Err e }
{}
