//! What follows from the definitions. Each function is a statement; its body is empty.
ghost use Rattle.std.specs.Prelude.{◌≡◌, List, All, map};
ghost use Rattle.std.specs.List.{list_any};
ghost use Rattle.hdr_bits.specs.declared.header.Header.{Header};
ghost use Rattle.report_groups.specs.declared.types.Group.{Group};
ghost use Rattle.hdr_bits.specs.HeaderBits.{IsHeader};
ghost use Rattle.net_types.specs.declared.network.Row.{Row};
ghost use Rattle.report_groups.specs.declared.types.Entry.{Entry};
ghost use Rattle.report_groups.specs.Entries.{AreEntries};
ghost use Rattle.report_groups.specs.Groups.{cell_of, cells_of};
ghost use Rattle.report_groups.specs.Least.{IsLeast, least_of};
ghost use Rattle.report_groups.specs.Meaning.{is_in_row, is_in_group};
ghost use Rattle.report_groups.specs.Shown.{is_shown};

/// A header is in a group, where each of its fields matches some pattern of the group's field, exactly where it is in one of
/// the rows that the group stands for.
pub fn groups_are_unions()
    ensures { (g : Group) (h : Header) → list_any (is_in_row h) (cells_of g) ≡ is_in_group h g }
{}

/// A header is in what is shown of the groups of an ingress exactly where it is in one of the ingress's rows.
pub fn shown_are_the_rows()
    ensures { (rows : List Row) (entries : List Entry) → AreEntries rows entries → (h : Header) → IsHeader h
        → list_any (λ e. is_shown h e.shown) entries ≡ list_any (is_in_row h) (map cell_of rows) }
{}

/// The least header of each group of an ingress is one of the group's headers, and has the smallest number of them.
pub fn least_headers_are_least()
    ensures { (rows : List Row) (entries : List Entry) → AreEntries rows entries → All (λ e. IsLeast e.group (least_of e.group)) entries }
{}
