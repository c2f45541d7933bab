//! Laws of locks, each the contract of a function with nothing to do.

ghost use Rattle.std.specs.Prelude.{◌≡◌, ℕ, false, None, List};
ghost use Rattle.qc_stamp.specs.declared.stamp.TxId.{TxId};
ghost use Rattle.qc_entry.specs.declared.line.OwnLine.{OwnLine};
ghost use Rattle.qc_entry.specs.declared.line.ReadLock.{ReadLock};
ghost use Rattle.qc_table.specs.Depends.{depends};
ghost use Rattle.qc_lock.specs.Clash.{read_clash, append_clash};
ghost use Rattle.qc_lock.specs.Conflict.{In, IsReadConflict, IsAppendConflict, IsSmallest};
ghost use Rattle.qc_lock.specs.Held.{same_tx, entry_of, held_of, with_owns, with_locks, with_held, without_held};
ghost use Rattle.qc_lock.specs.declared.held.Held.{Held};

/// A read is refused just where there is a conflict, and the smallest one is
/// told.
pub fn reads_are_refused_on_conflict()
    ensures { (relation : List ℕ) (held : List Held) (tx : TxId) (object inv : ℕ)
        → IsSmallest (IsReadConflict relation held tx object inv) (read_clash relation held tx object inv) }
{}

/// An append is refused just where there is a conflict, and the smallest one
/// is told.
pub fn appends_are_refused_on_conflict()
    ensures { (relation : List ℕ) (held : List Held) (tx : TxId) (own : List OwnLine)
        → IsSmallest (IsAppendConflict relation held tx own) (append_clash relation held tx own) }
{}

/// Where a read is granted, its invocation depends on no event of an own line
/// of the object that another transaction holds.
pub fn granted_reads_conflict_with_nothing()
    ensures { (relation : List ℕ) (held : List Held) (tx : TxId) (object inv : ℕ) (holder : Held) (line : OwnLine)
        → read_clash relation held tx object inv ≡ None
        → In holder held → same_tx holder.tx tx ≡ false → In line holder.own → line.object ≡ object
        → depends relation inv line.event ≡ false }
{}

/// Where an append is granted, no invocation of a read lock of a line's object
/// that another transaction holds depends on the line's event.
pub fn granted_appends_conflict_with_nothing()
    ensures { (relation : List ℕ) (held : List Held) (tx : TxId) (own : List OwnLine)
        (line : OwnLine) (holder : Held) (lock : ReadLock)
        → append_clash relation held tx own ≡ None
        → In line own → In holder held → same_tx holder.tx tx ≡ false → In lock holder.locks → lock.object ≡ line.object
        → depends relation lock.inv line.event ≡ false }
{}

/// What is given to a transaction it holds, beside what it held; what others
/// hold stays.
pub fn transactions_hold_what_is_given()
    ensures locks { (held : List Held) (tx : TxId) (locks : List ReadLock) (own : List OwnLine)
        → (held_of (with_held held tx locks own) tx).locks ≡ with_locks (held_of held tx).locks locks }
    ensures own { (held : List Held) (tx : TxId) (locks : List ReadLock) (own : List OwnLine)
        → (held_of (with_held held tx locks own) tx).own ≡ with_owns (held_of held tx).own own }
    ensures others { (held : List Held) (tx other : TxId) (locks : List ReadLock) (own : List OwnLine)
        → same_tx tx other ≡ false → entry_of (with_held held tx locks own) other ≡ entry_of held other }
{}

/// A transaction that is dropped holds nothing; what others hold stays.
pub fn transactions_are_dropped()
    ensures dropped { (held : List Held) (tx : TxId) → entry_of (without_held held tx) tx ≡ None }
    ensures others { (held : List Held) (tx other : TxId)
        → same_tx tx other ≡ false → entry_of (without_held held tx) other ≡ entry_of held other }
{}
