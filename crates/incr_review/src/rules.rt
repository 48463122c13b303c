//! The routes and the access lists of a device after an edit.

ghost use Rattle.std.specs.Prelude.{◌≡◌, IfErr, OnOk};
ghost use Rattle.incr_review.specs.Edited.{IsFailOf, rules_edited};

use crate::edits::{Edit, EditFail};
use crate::entries::{EntryEdit, edit_lists};
use crate::routes::{add_route, drop_route};
use net_types::Config;
use std::alloc::Global;

/// Edits the routes or the access lists of a device with this configuration.
pub(crate) fn edit_rules(alloc: Global, config: &mut Config, edit: &Edit) -> Result<(), EditFail>
    ensures ok { OnOk result (rules_edited edit.now config.old ≡ Ok (record { routes = config.new.routes; lists = config.new.lists })) }
    ensures fail { IfErr result (IsFailOf (rules_edited edit.now config.old)) }
    ensures others { config.new ≡ record config.old { routes = config.new.routes; lists = config.new.lists } }
{
    match edit {
        Edit::AddEntry {
            device: _,
            list,
            entry,
        } => edit_lists(alloc, &mut config.lists, list, EntryEdit::Add { entry }),
        Edit::DropEntry {
            device: _,
            list,
            sequence,
        } => {
            let change = EntryEdit::Drop {
                sequence: *sequence,
            };
            edit_lists(alloc, &mut config.lists, list, change)
        }
        Edit::AddRoute { device: _, route } => add_route(alloc, &mut config.routes, route),
        Edit::DropRoute { device: _, route } => drop_route(alloc, &mut config.routes, route),
    }
}
