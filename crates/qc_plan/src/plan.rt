//! Plans: weights and thresholds.

ghost use Rattle.std.specs.Prelude.{◌≡◌};
ghost use Rattle.qc_plan.specs.Need.{need_of};

use qc_list::List;

/// The sites' weights, by site.
pub type Weights = List<u8>;

/// Thresholds, by object and then by invocation or event.
pub type Needs = List<List<u16>>;

/// The weights and thresholds of an epoch.
#[derive(Drop)]
pub struct Plan {
    /// Each site's weight, 0 to 255.
    pub weights: Weights,
    /// The weight that a read round needs, by object and invocation.
    pub initial: Needs,
    /// The weight that an append round needs, by object and event.
    pub last: Needs,
}

impl Plan {
    /// The weight that a read round for this invocation needs, and 0 where the
    /// plan lists none.
    pub fn read_need(&self, object: u8, inv: u8) -> u16
        ensures { result ≡ need_of self.now.initial object inv }
    {
        need(&self.initial, object, inv)
    }

    /// The weight that an append round for this event needs, and 0 where the
    /// plan lists none.
    pub fn append_need(&self, object: u8, event: u8) -> u16
        ensures { result ≡ need_of self.now.last object event }
    {
        need(&self.last, object, event)
    }
}

/// The threshold at two places, and 0 where there is none.
fn need(needs: &Needs, object: u8, place: u8) -> u16
    ensures { result ≡ need_of needs.now object place }
{
    match needs.items().get(object as usize) {
        Some(list) => threshold(list, place),
        None => 0,
    }
}

ghost use Rattle.std.specs.Prelude.{slice_get, unwrap_or};

/// The threshold at a place of a list, and 0 where there is none.
fn threshold(list: &List<u16>, place: u8) -> u16
    ensures { result ≡ unwrap_or (slice_get list.now place) 0 }
{
    list.items().get(place as usize).copied().unwrap_or(0)
}
