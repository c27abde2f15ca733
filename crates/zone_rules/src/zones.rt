//! Zones, of which those of one zone set are active at a time.
ghost use Rattle.std.specs.Prelude.{◌≡◌, IfOk, IsTrue};
ghost use Rattle.zone_rules.specs.Joined as spec;
ghost use Rattle.fab_config.specs.Settings.{do_rise};
ghost use Rattle.zone_rules.specs.Rules.{ZoneRules};

use crate::index::{NameRows, index_of, row_of_name};
use crate::sets::{SetRows, row_of_set, rows_of_sets};
use fab_base::{Moment, NoMemory, Wwn};
use fab_config::{ActivationList, SetList, ZoneList};
use sorted_lists::share_a_place;
use std::alloc::Global;
use std::marker::Model;
use std::snapshot::Snapshot;

/// The activations of a configuration, with a row of bits over the zones for each name
/// and each zone set. The zones and the zone sets themselves are read by contracts alone.
pub struct Zones {
    zones: Snapshot<ZoneList>,
    sets: Snapshot<SetList>,
    activations: ActivationList,
    names: NameRows,
    set_rows: SetRows,
}

impl Drop for Zones {
    // By hand, so that it is dropped by one call.
    fn drop(self) {
        let Zones {
            zones: _zones,
            sets: _sets,
            activations: _activations,
            names: _names,
            set_rows: _set_rows,
        } = self;
    }
}

impl Model for Zones {
    ghost use Rattle.zone_rules.specs.Rules.{ZoneRules};
    ghost use Rattle.zone_rules.specs.Index.{KeepsIndex};

    ghost Value = { ZoneRules };

    ghost view = { λ z. record {
      zones = z.zones.value;
      sets = z.sets.value;
      activations = z.activations;
    } };

    ghost invariant = { λ z. KeepsIndex z.names z.set_rows z.zones.value z.sets.value };
}

impl Zones {
    /// The zones of these lists, of which the activations alone are copied. The moments of a
    /// configuration rise, so that the last activation up to a moment is the latest.
    pub fn build(
        alloc: Global,
        list: &ZoneList,
        sets: &SetList,
        activations: &ActivationList,
    ) -> Result<Zones, NoMemory>
        ensures { IfOk result (λ z. z ≡ record {
          zones = list.now;
          sets = sets.now;
          activations = activations.now;
        }) }
    {
        Ok(Zones {
            zones: Snapshot::of(list),
            sets: Snapshot::of(sets),
            activations: copy_activations(alloc, activations)?,
            names: index_of(alloc, list)?,
            set_rows: rows_of_sets(alloc, sets, list.len())?,
        })
    }

    /// Whether two names differ and a zone that is active at this moment lists both.
    #[tactic(auto, unfolding(crate::specs::Joined::joined))]
    pub fn joined(&self, at: Moment, x: Wwn, y: Wwn) -> bool
        ensures { result ≡ spec.joined self.now.zones self.now.sets self.now.activations at x y }
    {
        if x.0 == y.0 {
            return false;
        }
        let of_x = row_of_name(&self.names, x.0);
        let of_y = row_of_name(&self.names, y.0);
        match active_set(&self.activations, at) {
            None => share_a_place(of_x, of_y, of_x),
            Some(set) => share_a_place(of_x, of_y, row_of_set(&self.set_rows, set)),
        }
    }

    /// The moment of the first activation above this one.
    pub fn next_change(&self, after: Moment) -> Option<Moment>
        ensures first { result ≡ spec.next_change self.now.activations after }
        ensures least { IsTrue (do_rise self.now.activations)
            → spec.IsNextChange self.now.activations after result }
    {
        first_change(&self.activations, after)
    }
}

// The moment of the first activation above this one.
fn first_change(activations: &ActivationList, after: Moment) -> Option<Moment>
    ensures { result ≡ spec.next_change activations.now after }
{
    for index in 0..activations.len() {
        let activation = activations.at(index).unwrap();
        if value(activation.moment) > value(after) {
            return Some(activation.moment);
        }
    }
    None
}

// The milliseconds of a moment.
fn value(moment: Moment) -> u64
    ensures { result ≡ moment }
{
    moment.0
}

// The set that is active at a moment.
fn active_set(activations: &ActivationList, at: Moment) -> Option<u32>
    ensures { result ≡ spec.active_set activations.now at }
{
    let mut found = None;
    for index in 0..activations.len() {
        let activation = activations.at(index).unwrap();
        if value(activation.moment) <= value(at) {
            found = Some(activation.set);
        }
    }
    found
}

fn copy_activations(alloc: Global, activations: &ActivationList) -> Result<ActivationList, NoMemory>
    ensures { IfOk result (λ l. l ≡ activations.now) }
{
    let mut copy = ActivationList::new(alloc)?;
    for index in 0..activations.len() {
        copy.push(alloc, *activations.at(index).unwrap())?;
    }
    Ok(copy)
}
