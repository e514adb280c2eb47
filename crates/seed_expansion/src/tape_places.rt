//! The places of a tape.
ghost use Rattle.std.specs.Prelude.{◌≡◌, ◌||◌, OnOk, IfOk, is_some};
ghost use Rattle.std.specs.BTreeMap.{get};
ghost use Rattle.std.specs.BTreeSet.{contains};
ghost use Rattle.std.specs.List.Sorted.{IsStrictlySortedBy};
ghost use Rattle.seed_expansion.specs.declared.nodes.Place.{Place};
ghost use Rattle.seed_expansion.specs.Tapes.{place_cmp};

use crate::nodes::Place;
use std::alloc::{AllocError, Global};
use std::collections::{BTreeMap, BTreeSet};
use std::marker::Model;

/// Places of a tape, seen as a list.
#[derive(Debug, Drop)]
pub struct TapePlaces {
    items: Vec<Place>,
}

impl Model for TapePlaces {
    ghost use Rattle.std.specs.Prelude.{List};
    ghost use Rattle.seed_expansion.specs.declared.nodes.Place.{Place};

    ghost Value = { List Place };

    ghost view = { λ list. list.items.items };
}

impl TapePlaces {
    /// The list of a vector's items.
    pub fn from_vec(items: Vec<Place>) -> Self
        ensures { result ≡ items.items }
    {
        TapePlaces { items }
    }

    /// The places as a slice.
    pub fn as_slice(&self) -> &[Place]
        ensures { result.now ≡ self.now }
    {
        self.items.as_slice()
    }
}

/// Adds the places of a map to a set.
pub fn add_places<V>(
    places: &mut BTreeSet<Place>,
    map: &BTreeMap<Place, V>,
) -> Result<(), AllocError>
    ensures { OnOk result ((q : Place) → contains place_cmp places.new q ≡ (contains place_cmp places.old q || is_some (get place_cmp map.now q))) }
{
    places.extend(map.keys())
}

/// The places of a set, in their order.
pub fn listed(alloc: Global, places: &BTreeSet<Place>) -> Result<Vec<Place>, AllocError>
    ensures items { IfOk result (λ list. list.items ≡ places.now.keys) }
    ensures rising { IfOk result (λ list. IsStrictlySortedBy place_cmp list.items) }
{
    places.iter().copied().collect(alloc)
}
