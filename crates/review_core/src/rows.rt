//! Whether a report has something to look at.

ghost use Rattle.std.specs.Prelude.{◌≡◌};
ghost use Rattle.std.specs.List.{list_any};
ghost use Rattle.review_core.specs.Job.{has_rows};

use net_types::Section;

/// Whether some section has a row.
pub(crate) fn any_rows(sections: &[Section]) -> bool
    ensures { result ≡ list_any has_rows sections.now }
{
    sections.iter().any(|section| has_rows(section))
}

fn has_rows(section: &Section) -> bool
    ensures { result ≡ has_rows section.now }
{
    section.rows.as_slice().len() > 0
}
