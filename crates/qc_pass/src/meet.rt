//! A pass and the right meet: the pass sees the history, and may add to it.

ghost use Rattle.std.specs.Prelude.{◌≡◌, ◌++◌, ◌∷◌, [], Some};
ghost use Rattle.qc_pass.specs.Tokens.{Met, all, number, pass_table, right_table, room, table_of};
ghost use Rattle.qc_pass.specs.Views.{IsJoined, Knows, joined, marked, pass_apart, pass_view, right_apart, with_entry};

use crate::steps::{Add, Entering, JoinRight, Keeping, Load, SplitRight};
use crate::token::{Pass, Passes, Right};
use crate::view::View;
use atomic_table::Seat;
use std::marker::Brand;

impl<E> Passes<E> {
    /// Adds an entry of the pass's actor to the history, which the pass has then
    /// seen. Its room stays.
    pub fn mark(&self, pass: &mut Pass<E>, right: Right<E>, entry: &E) -> Right<E>
        requires table { (pass_table pass.old ≡ table_of self.now) × (right_table right ≡ table_of self.now) }
        ensures met { Met pass.old right pass.new result (entry.now ∷ []) (room pass.old) }
        ensures all { all result ≡ all right ++ marked (number pass.old) entry.now ∷ [] }
    {
        self.join_right(&mut pass.seat, right);
        self.add::<Brand>(&mut pass.seat, entry);
        self.split_right::<Brand>(&mut pass.seat, pass.room)
    }

    /// The pass sees the history, and this room is kept for it.
    pub fn look(&self, pass: &mut Pass<E>, right: Right<E>, room: u64) -> Right<E>
        requires table { (pass_table pass.old ≡ table_of self.now) × (right_table right ≡ table_of self.now) }
        ensures met { Met pass.old right pass.new result [] room }
        ensures all { all result ≡ all right }
    {
        self.join_right(&mut pass.seat, right);
        self.load(&mut pass.seat);
        pass.room = room;
        self.split_right::<Brand>(&mut pass.seat, room)
    }

    // A join tells nothing. That the pass is of the right's history shows at the
    // next step on the word, `load` or `add`.
    fn join_right(&self, pass: &mut Seat<(), View<E>>, right: Right<E>)
        requires table { (pass.old.table_id ≡ table_of self.now) × (right_table right ≡ table_of self.now) }
        requires pass { pass.old.me
            ≡ (pass_view pass.old.me.0.number pass.old.me.0.seen pass.old.me.0.mine pass.old.me.0.room, []) }
        ensures table { pass.new.table_id ≡ pass.old.table_id }
        ensures joined { pass.new.me ≡ (joined pass.old.me.0 right.seat.me.0, []) }
    {
        let Right { seat } = right;
        self.table.shared.join_seat::<JoinRight>(pass, seat);
    }

    // The pass's seat has the right, and learns that it is a pass of its history.
    fn load(&self, pass: &mut Seat<(), View<E>>)
        requires table { pass.old.table_id ≡ table_of self.now }
        requires joined { IsJoined pass.old.me }
        ensures same { (pass.new.table_id ≡ pass.old.table_id) × (pass.new.me ≡ pass.old.me) }
        ensures knows { Knows pass.old.me.0 }
    {
        self.table.shared.load::<Load>(pass, 0);
    }

    // No memory keeps the entry: it stands in what the seats know.
    fn add<N: Entering<E>>(&self, pass: &mut Seat<(), View<E>>, entry: &E)
        requires table { pass.old.table_id ≡ table_of self.now }
        requires joined { IsJoined pass.old.me }
        requires entry { N.entry ≡ Some entry.now }
        ensures table { pass.new.table_id ≡ pass.old.table_id }
        ensures more { pass.new.me ≡ (with_entry pass.old.me.0 entry.now, []) }
        ensures knows { Knows pass.old.me.0 }
    {
        self.table.shared.fetch_add::<Add<N>>(pass, 0, 1);
    }

    // The pass has seen the history, with this room, and the right is apart again.
    #[tactic(auto, using(crate::proofs::Keeps::gives))]
    fn split_right<N: Keeping>(&self, pass: &mut Seat<(), View<E>>, room: u64) -> Right<E>
        requires table { pass.old.table_id ≡ table_of self.now }
        requires joined { IsJoined pass.old.me }
        requires room { N.room ≡ room }
        ensures table { (pass.new.table_id ≡ pass.old.table_id) × (right_table result ≡ pass.old.table_id) }
        ensures pass { pass.new.me ≡ (pass_apart room pass.old.me.0, []) }
        ensures right { result.seat.me ≡ (right_apart room pass.old.me.0, []) }
    {
        let seat = self.table.shared.split_seat::<SplitRight<N>>(pass);
        Right { seat }
    }
}
