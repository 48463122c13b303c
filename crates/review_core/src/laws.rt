//! Laws of the definitions. Each function here is a statement; its body is empty.

ghost use Rattle.std.specs.Prelude.{◌≡◌, ◌+◌, ℕ, List, ◌++◌, Err, flat_map};
ghost use Rattle.net_io.specs.Files.{Told};
ghost use Rattle.net_types.specs.declared.network.Names.{Names};
ghost use Rattle.net_types.specs.declared.network.Place.{Place};
ghost use Rattle.net_types.specs.declared.network.Section.{Section};
ghost use Rattle.net_types.specs.Report.{IsReport};
ghost use Rattle.net_types.specs.World.{World};
ghost use Rattle.report_text.specs.ReportText.{affected_text, report_text, row_count, section_text};
ghost use Rattle.job_core.specs.declared.stop.Stop.{Stop};
ghost use Rattle.job_core.specs.Accepted.{MayAlwaysStop};
ghost use Rattle.review_core.specs.Accepted.{IsAccepted};
ghost use Rattle.review_core.specs.Job.{Does};

/// A job of which nothing is refused, too long or absent is stopped by nothing but a read that fails and want of memory:
/// so the causes of a stop are all causes there are.
pub fn accepted_jobs_are_done()
    ensures { (words : List (List ℕ)) (t : Told) (s : Stop) → IsAccepted words t → Does words t (Err s) → MayAlwaysStop s }
{}

/// A report is that of its parts: on ingresses one behind the other it has the sections of the first ones and behind them those of
/// the others, in its text, too; and as many rows as both together.
pub fn reports_are_joined()
    ensures sections { (before after : List Place) (old new : World) (t : ℕ) (front rest : List Section) → IsReport before old new t front → IsReport after old new t rest → IsReport (before ++ after) old new t (front ++ rest) }
    ensures text { (names : Names) (front rest : List Section) → report_text names (front ++ rest) ≡ flat_map (section_text names) front ++ flat_map (section_text names) rest ++ affected_text (front ++ rest) }
    ensures rows { (front rest : List Section) → row_count (front ++ rest) ≡ row_count front + row_count rest }
{}
