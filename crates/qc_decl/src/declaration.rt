//! A declaration, and the actors' numbers that it gives.

ghost use Rattle.std.specs.Prelude.{◌≡◌, ◌+◌, ◌<◌, IfSome, IsNone, ◌↔◌};
ghost use Rattle.qc_decl.specs.Actors.{client_actor, administrator, controller, actors};
ghost use Rattle.qc_decl.specs.Lookup.{table_at, plan_in, read_need_of, append_need_of};

use qc_list::{List, Name};
use qc_plan::Plan;
use qc_table::{Kind, Table};

/// The types, by number.
pub type Kinds = List<Kind>;

/// Each object's type, by object.
pub type Objects = List<u8>;

/// One plan for each epoch, from epoch 1.
pub type Plans = List<Plan>;

/// A list of names.
pub type Names = List<Name>;

/// The names of a type and of its parts, each in the order of their numbers.
#[derive(Drop)]
pub struct KindNames {
    /// The type's name.
    pub name: Name,
    /// The states' names.
    pub states: Names,
    /// The invocations' names.
    pub invs: Names,
    /// The responses' names.
    pub resps: Names,
}

/// The names of each type, by number.
pub type KindNamesList = List<KindNames>;

/// What a designer declares: how many sites and clients there are, the types,
/// the objects, the quorums of each epoch, and the names of it all.
#[derive(Drop)]
pub struct Declaration {
    /// The number of sites, 1 to 16.
    pub sites: u8,
    /// The number of clients, 1 to 16.
    pub clients: u8,
    /// The types.
    pub kinds: Kinds,
    /// Each object's type.
    pub objects: Objects,
    /// The plan of each epoch.
    pub plans: Plans,
    /// The types' names.
    pub kind_names: KindNamesList,
    /// The objects' names.
    pub object_names: Names,
}

impl Declaration {
    /// The actor's number of a client.
    pub fn client_actor(&self, client: u8) -> u8
        requires { self.now.sites + client < 256 }
        ensures { result ≡ client_actor self.now client }
    {
        self.sites + client
    }

    /// The administrator's number.
    pub fn administrator(&self) -> u8
        requires { self.now.sites + self.now.clients < 256 }
        ensures { result ≡ administrator self.now }
    {
        self.sites + self.clients
    }

    /// The controller's number.
    pub fn controller(&self) -> u8
        requires { self.now.sites + self.now.clients < 255 }
        ensures { result ≡ controller self.now }
    {
        self.sites + self.clients + 1
    }

    /// The table of an object's type, or `None` where there is no such object.
    pub fn table(&self, object: u8) -> Option<&Table>
        ensures some { IfSome result (λ t. table_at self.now object ≡ Some t.now) }
        ensures none { IsNone result ↔ (table_at self.now object ≡ None) }
    {
        let kind = *self.objects.items().get(object as usize)?;
        let kind = self.kinds.items().get(kind as usize)?;
        Some(&kind.table)
    }

    /// The plan of an epoch, from epoch 1, or `None` where there is none.
    pub fn plan(&self, epoch: u8) -> Option<&Plan>
        ensures some { IfSome result (λ p. plan_in self.now epoch ≡ Some p.now) }
        ensures none { IsNone result ↔ (plan_in self.now epoch ≡ None) }
    {
        let place = epoch.checked_sub(1)?;
        self.plans.items().get(place as usize)
    }

    /// The weight that a read round for an invocation needs in an epoch, and 0
    /// where none is declared.
    pub fn read_need(&self, epoch: u8, object: u8, inv: u8) -> u16
        ensures { result ≡ read_need_of self.now epoch object inv }
    {
        match self.plan(epoch) {
            Some(plan) => plan.read_need(object, inv),
            None => 0,
        }
    }

    /// The weight that an append round for an event needs in an epoch, and 0
    /// where none is declared.
    pub fn append_need(&self, epoch: u8, object: u8, event: u8) -> u16
        ensures { result ≡ append_need_of self.now epoch object event }
    {
        match self.plan(epoch) {
            Some(plan) => plan.append_need(object, event),
            None => 0,
        }
    }
}
