//! Laws of the definitions. Each function here is a statement; its body is empty.

ghost use Rattle.std.specs.Prelude.{◌≡◌, List, Ok, Err};
ghost use Rattle.net_types.specs.declared.config.Loaded.{Loaded};
ghost use Rattle.net_io.specs.Files.{Told};
ghost use Rattle.topo_links.specs.Ends.{Word};
ghost use Rattle.net_load.specs.declared.folder.LoadFail.{LoadFail};
ghost use Rattle.net_load.specs.Folder.{Loads, Unless};

/// A folder has one answer: it is loaded as one list of devices alone, and then nothing stops it but a fault and want of
/// memory.
pub fn a_folder_has_one_answer()
    ensures devices { (t : Told) (folder : Word) (xs ys : List Loaded)
        → Loads (λ devices. devices) t folder (Ok xs) → Loads (λ devices. devices) t folder (Ok ys) → xs ≡ ys }
    ensures cause { (t : Told) (folder : Word) (xs : List Loaded) (e : LoadFail)
        → Loads (λ devices. devices) t folder (Ok xs) → Loads (λ devices. devices) t folder (Err e) → Unless e ⊥ }
{}
