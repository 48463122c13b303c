//! What follows from the definition of an edit. Each law is the contract of a function that does nothing.

ghost use Rattle.std.specs.Prelude.{◌≡◌};
ghost use Rattle.net_types.specs.declared.network.Network.{Network};
ghost use Rattle.net_types.specs.Edits.{AreEdited};
ghost use Rattle.incr_review.specs.declared.edits.Edit.{Edit};
ghost use Rattle.incr_review.specs.Edited.{device_of, edited};

/// After an edit the devices are the same, one for one, but for those of the edit's device, which have the same interfaces.
pub fn edited_is_edited_there()
    ensures { (e : Edit) (network after : Network) → edited e network ≡ Ok after → AreEdited (device_of e) network.devices after.devices }
{}
