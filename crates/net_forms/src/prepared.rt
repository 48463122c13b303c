//! Two networks that are compiled in one table.

use crate::Version;
use crate::compile::compile_network;
use crate::forms::{Beforehand, NetworkForm, Tables};
use crate::networks::Networks;
use crate::seat::{CompiledSeat, seat_at};
use device_fates::Fates;
use indexmap::IndexSet;
use like_devices::{has_name, like_devices};
use net_types::{NoMemory, Place};
use net_view::WorldRef;
use std::alloc::Global;
use std::marker::Model;

/// Two networks, compiled in one table.
pub struct Prepared<'a> {
    tables: Tables,
    old: NetworkForm<'a>,
    new: NetworkForm<'a>,
    /// The names of devices that are known to do the same in both.
    like: IndexSet<u32>,
}

impl<'a> Drop for Prepared<'a> {
    fn drop(self) {
        let Prepared {
            tables: _,
            old: _,
            new: _,
            like: _,
        } = self;
    }
}

impl<'a> Model for Prepared<'a> {
    ghost use Rattle.net_view.specs.Borrowed.{world_of};
    ghost use Rattle.net_forms.specs.Networks.{ArePrepared};
    ghost use Rattle.net_forms.specs.Worlds.{Worlds};

    ghost Value = { Worlds };

    ghost view = { λ p. record { old = world_of p.old.world; new = world_of p.new.world } };

    ghost invariant = { λ p. ArePrepared p.tables p.old p.new p.like.keys };
}

/// The forms of two networks in one table, without its functions, to which others may be added meanwhile.
#[derive(Clone, Copy)]
pub struct BothForms<'a> {
    pub fates: &'a Fates,
    pub old: &'a NetworkForm<'a>,
    pub new: &'a NetworkForm<'a>,
    /// The names of devices that do the same in both.
    pub like: &'a IndexSet<u32>,
}

/// Two networks compiled in one table, taken apart: functions may be added to the table.
#[derive(Drop)]
pub struct PreparedParts<'a> {
    pub tables: Tables,
    pub old: NetworkForm<'a>,
    pub new: NetworkForm<'a>,
    /// The names of devices that do the same in both.
    pub like: IndexSet<u32>,
}

impl<'a> Prepared<'a> {
    ghost use Rattle.std.specs.Prelude.{◌≡◌, true, IfOk, IfSome, option_map};
    ghost use Rattle.net_view.specs.Borrowed.{seat_of};
    ghost use Rattle.like_devices.specs.Like.{IsLike};
    ghost use Rattle.net_types.specs.World.{seat_at};
    ghost use Rattle.net_forms.specs.Known.{AreKnownBefore};
    ghost use Rattle.net_forms.specs.Pairs.{ArePreparedParts, worlds_of};
    ghost use Rattle.net_forms.specs.Seats.{StandsIn};
    ghost use Rattle.net_forms.specs.Worlds.{world_in};

    /// Compiles two networks.
    ///
    /// # Errors
    ///
    /// There was no memory.
    pub fn of(alloc: Global, networks: Networks<'a>) -> Result<Prepared<'a>, NoMemory>
        ensures { IfOk result (λ p. p ≡ worlds_of networks.entry) }
    {
        let tables = Tables::new(alloc)?;
        let nothing = Beforehand {
            lists: &[],
            fates: &[],
        };
        Prepared::with_known(alloc, tables, networks, nothing, nothing)
    }

    /// Compiles two networks in these tables, which may have some functions of the devices of both already.
    ///
    /// # Errors
    ///
    /// There was no memory.
    pub fn with_known(
        alloc: Global,
        mut tables: Tables,
        networks: Networks<'a>,
        of_old: Beforehand,
        of_new: Beforehand,
    ) -> Result<Prepared<'a>, NoMemory>
        requires old { AreKnownBefore tables.diagrams tables.fates networks.old.network.now.devices of_old }
        requires new { AreKnownBefore tables.diagrams tables.fates networks.new.network.now.devices of_new }
        ensures { IfOk result (λ p. p ≡ worlds_of networks.entry) }
    {
        let forms = both_forms(alloc, &mut tables, networks, of_old, of_new)?;
        Ok(Prepared {
            tables,
            old: forms.old,
            new: forms.new,
            like: forms.like,
        })
    }

    /// Its parts.
    pub fn into_parts(self) -> PreparedParts<'a>
        ensures { ArePreparedParts self.entry result }
    {
        let Prepared {
            tables,
            old,
            new,
            like,
        } = self;
        PreparedParts {
            tables,
            old,
            new,
            like,
        }
    }

    /// What stands at a place in one of the networks.
    pub fn seat_at<'b>(&'b self, version: Version, place: Place) -> Option<CompiledSeat<'b>>
        ensures seat { option_map (λ s. seat_of s.seat) result ≡ seat_at (world_in self.now version) place }
        ensures stands { IfSome result (StandsIn (world_in self.now version)) }
    {
        match version {
            Version::Old => seat_at(&self.tables, &self.old, place),
            Version::New => seat_at(&self.tables, &self.new, place),
        }
    }

    /// Whether the device of this name is known to do the same in both networks. A false answer says nothing.
    pub fn is_alike(&self, name: u32) -> bool
        ensures { result ≡ true → IsLike self.now.old self.now.new name }
    {
        has_name(&self.like, name)
    }
}

// The forms of two networks in one table, with the names of devices that do the same in both.
#[derive(Drop)]
struct FormPair<'a> {
    old: NetworkForm<'a>,
    new: NetworkForm<'a>,
    like: IndexSet<u32>,
}

// The form of the new network, with the names of devices that do the same in the old one.
#[derive(Drop)]
struct LaterForm<'a> {
    form: NetworkForm<'a>,
    like: IndexSet<u32>,
}

ghost use Rattle.std.specs.Prelude.{◌≡◌, IfOk, OnOk};
ghost use Rattle.net_forms.specs.Forms.{TablesGrow};
ghost use Rattle.net_forms.specs.Known.{AreKnownBefore};
ghost use Rattle.net_forms.specs.Networks.{AreLike, ArePrepared, IsNetworkForm};

fn both_forms<'a>(
    alloc: Global,
    tables: &mut Tables,
    networks: Networks<'a>,
    of_old: Beforehand,
    of_new: Beforehand,
) -> Result<FormPair<'a>, NoMemory>
    requires old { AreKnownBefore tables.old.diagrams tables.old.fates networks.old.network.now.devices of_old }
    requires new { AreKnownBefore tables.old.diagrams tables.old.fates networks.new.network.now.devices of_new }
    ensures forms { IfOk result (λ f. ArePrepared tables.new f.old f.new f.like.keys) }
    ensures old { IfOk result (λ f. f.old.world ≡ networks.entry.old) }
    ensures new { IfOk result (λ f. f.new.world ≡ networks.entry.new) }
{
    let old = compile_network(alloc, tables, networks.old, None, of_old)?;
    let later = later_form(alloc, tables, &old, networks.new, of_new)?;
    Ok(FormPair {
        old,
        new: later.form,
        like: later.like,
    })
}

// The form of the new network, once the old one has its form in the same tables.
fn later_form<'a>(
    alloc: Global,
    tables: &mut Tables,
    old: &NetworkForm,
    new: WorldRef<'a>,
    before: Beforehand,
) -> Result<LaterForm<'a>, NoMemory>
    requires old { IsNetworkForm tables.old.diagrams tables.old.fates old.now }
    requires before { AreKnownBefore tables.old.diagrams tables.old.fates new.network.now.devices before }
    ensures form { IfOk result (λ l. IsNetworkForm tables.new.diagrams tables.new.fates l.form) }
    ensures world { IfOk result (λ l. l.form.world ≡ new.entry) }
    ensures like { IfOk result (λ l. AreLike old.now l.form l.like.keys) }
    ensures kept { OnOk result (TablesGrow tables.old tables.new) }
{
    let form = compile_network(alloc, tables, new, Some(old), before)?;
    let like = like_devices(alloc, old.world, new, &old.wiring, &form.wiring)?;
    Ok(LaterForm { form, like })
}
