//! The mailboxes of all actors, and what happens to each of them.

ghost use Rattle.std.specs.Prelude.{◌≡◌, ℕ, ◌+◌, ◌^◌, ◌<◌, length, map, replicate, set, IfOk, OnOk};
ghost use Rattle.std.specs.List.{AllByRecursion as Every};
ghost use Rattle.qc_mailbox.specs.Rooms.{each_by_up, tray_at, with_coming, with_command, with_commands, with_fall};
ghost use Rattle.qc_mailbox.specs.Rooms.{with_going};
ghost use Rattle.qc_mailbox.specs.Trays.{empty_tray, tray_begun, tray_losing, tray_opened, tray_taken, tray_told};
ghost use Rattle.qc_mailbox.specs.Boxes.{HasRoom, tray};
ghost use Rattle.qc_mailbox.specs.Phases.{IsPrepared};
ghost use Rattle.qc_link.specs.Limits.{most_actors};

use crate::mailbox::Mailbox;
use crate::ups::Ups;
use qc_link::{Fate, MOST_ACTORS};
use qc_list::OutOfMemory;
use qc_msg::Message;
use qc_script::CommandLine;
use std::alloc::Global;

/// Empty mailboxes, one for each actor.
pub(crate) fn empty(alloc: Global) -> Result<Vec<Mailbox>, OutOfMemory>
    ensures trays { IfOk result (λ boxes. map tray boxes.items ≡ replicate most_actors empty_tray) }
    ensures room { IfOk result (λ boxes. Every (HasRoom 0) boxes.items) }
{
    let mut boxes = Vec::new(alloc);
    'actors: for _ in 0..MOST_ACTORS {
        boxes.push(Mailbox::new(alloc))?;
    }
    Ok(boxes)
}

/// A message comes to an actor, which is up or down.
pub(crate) fn come(
    boxes: &mut Vec<Mailbox>,
    up: bool,
    to: u8,
    number: u32,
    message: &Message,
    fate: Fate,
)
    requires length { length boxes.old.items ≡ most_actors }
    requires to { to < most_actors }
    requires room { Every (HasRoom 3) boxes.old.items }
    ensures length { length boxes.new.items ≡ length boxes.old.items }
    ensures trays { map tray boxes.new.items ≡ with_coming up (map tray boxes.old.items) to number message.now fate }
    ensures room { (room : ℕ) → Every (HasRoom (room + 3)) boxes.old.items → Every (HasRoom room) boxes.new.items }
{
    boxes[to as usize].come(up, number, message, fate);
}

/// A message of an actor's goes out, to one that is up or down.
pub(crate) fn go(
    boxes: &mut Vec<Mailbox>,
    up: bool,
    from: u8,
    number: u32,
    to: u8,
    message: &Message,
    fate: Fate,
)
    requires length { length boxes.old.items ≡ most_actors }
    requires from { from < most_actors }
    requires room { Every (HasRoom 1) boxes.old.items }
    ensures length { length boxes.new.items ≡ length boxes.old.items }
    ensures trays { map tray boxes.new.items
        ≡ with_going up (map tray boxes.old.items) from number to message.now fate }
    ensures room { (room : ℕ) → Every (HasRoom (room + 1)) boxes.old.items → Every (HasRoom room) boxes.new.items }
{
    boxes[from as usize].go(up, number, to, message, fate);
}

/// What is ready first for an actor is taken.
pub(crate) fn take(boxes: &mut Vec<Mailbox>, actor: u8)
    requires length { length boxes.old.items ≡ most_actors }
    requires actor { actor < most_actors }
    requires calls { (tray_at (map tray boxes.old.items) actor).calls + 1 < 2 ^ 32 }
    ensures length { length boxes.new.items ≡ length boxes.old.items }
    ensures trays { map tray boxes.new.items
        ≡ set (map tray boxes.old.items) actor (tray_taken (tray_at (map tray boxes.old.items) actor)) }
    ensures room { (room : ℕ) → Every (HasRoom room) boxes.old.items → Every (HasRoom room) boxes.new.items }
{
    boxes[actor as usize].take();
}

/// An actor tells the reply to its command.
pub(crate) fn tell(boxes: &mut Vec<Mailbox>, actor: u8)
    requires length { length boxes.old.items ≡ most_actors }
    requires actor { actor < most_actors }
    ensures length { length boxes.new.items ≡ length boxes.old.items }
    ensures trays { map tray boxes.new.items
        ≡ set (map tray boxes.old.items) actor (tray_told (tray_at (map tray boxes.old.items) actor)) }
    ensures room { (room : ℕ) → Every (HasRoom room) boxes.old.items → Every (HasRoom room) boxes.new.items }
{
    boxes[actor as usize].tell();
}

/// Makes this room in each mailbox. What waits stays, and so does a smaller
/// room, also after want of memory.
pub(crate) fn reserve(boxes: &mut Vec<Mailbox>, room: usize) -> Result<(), OutOfMemory>
    requires { length boxes.old.items ≡ most_actors }
    ensures length { length boxes.new.items ≡ length boxes.old.items }
    ensures same { map tray boxes.new.items ≡ map tray boxes.old.items }
    ensures kept { (kept : ℕ) → Every (HasRoom kept) boxes.old.items → Every (HasRoom kept) boxes.new.items }
    ensures ok { OnOk result (Every (HasRoom room) boxes.new.items) }
{
    'actors: for actor in 0..MOST_ACTORS {
        boxes[actor].reserve(room)?;
    }
    Ok(())
}

/// Takes the memory that the next phase wants, with so many commands for any of
/// the actors. What waits stays, also after want of memory.
pub(crate) fn prepare(
    boxes: &mut Vec<Mailbox>,
    room: usize,
    commands: usize,
) -> Result<(), OutOfMemory>
    requires length { length boxes.old.items ≡ most_actors }
    requires room { Every (HasRoom room) boxes.old.items }
    ensures length { length boxes.new.items ≡ length boxes.old.items }
    ensures same { map tray boxes.new.items ≡ map tray boxes.old.items }
    ensures room { Every (HasRoom room) boxes.new.items }
    ensures ok { OnOk result (Every (IsPrepared room commands) boxes.new.items) }
{
    'actors: for actor in 0..MOST_ACTORS {
        boxes[actor].prepare(commands)?;
    }
    Ok(())
}

/// Actors are asked commands, one after another.
pub(crate) fn ask_commands(boxes: &mut Vec<Mailbox>, room: usize, lines: &[CommandLine])
    requires { Every (IsPrepared room (length lines.now)) boxes.old.items }
    ensures length { length boxes.new.items ≡ length boxes.old.items }
    ensures trays { map tray boxes.new.items ≡ with_commands (map tray boxes.old.items) lines.now }
    ensures room { Every (HasRoom room) boxes.new.items }
{
    'lines: for line in lines {
        ask_command(boxes, line);
    }
}

/// An actor is asked a command more.
fn ask_command(boxes: &mut Vec<Mailbox>, line: &CommandLine)
    requires { Every (IsPrepared 0 1) boxes.old.items }
    ensures length { length boxes.new.items ≡ length boxes.old.items }
    ensures trays { map tray boxes.new.items ≡ with_command (map tray boxes.old.items) line.now }
    ensures prepared { (room commands : ℕ)
        → Every (IsPrepared room (commands + 1)) boxes.old.items → Every (IsPrepared room commands) boxes.new.items }
{
    if (line.actor as usize) < boxes.len() {
        boxes[line.actor as usize].ask_command(line.command);
    }
}

/// Late copies are ready, where no control line is left, for who is up.
pub(crate) fn open(boxes: &mut Vec<Mailbox>, none_left: bool, up: &Ups)
    requires length { length boxes.old.items ≡ most_actors }
    requires room { Every (HasRoom 0) boxes.old.items }
    ensures length { length boxes.new.items ≡ length boxes.old.items }
    ensures trays { map tray boxes.new.items ≡ each_by_up (tray_opened none_left) up.now (map tray boxes.old.items) }
    ensures room { (room : ℕ) → Every (HasRoom room) boxes.old.items → Every (HasRoom room) boxes.new.items }
{
    'actors: for actor in 0..MOST_ACTORS {
        boxes[actor].open(none_left, up.is_up(actor));
    }
}

/// The next phase begins, with no control line or some.
pub(crate) fn begin(boxes: &mut Vec<Mailbox>, none_left: bool, up: &Ups)
    requires length { length boxes.old.items ≡ most_actors }
    requires room { Every (HasRoom 0) boxes.old.items }
    ensures length { length boxes.new.items ≡ length boxes.old.items }
    ensures trays { map tray boxes.new.items ≡ each_by_up (tray_begun none_left) up.now (map tray boxes.old.items) }
    ensures room { (room : ℕ) → Every (HasRoom room) boxes.old.items → Every (HasRoom room) boxes.new.items }
{
    'actors: for actor in 0..MOST_ACTORS {
        boxes[actor].begin(none_left, up.is_up(actor));
    }
}

/// What others asked an actor and has no answer is lost.
pub(crate) fn lose(boxes: &mut Vec<Mailbox>, fallen: u8)
    requires length { length boxes.old.items ≡ most_actors }
    requires room { Every (HasRoom 0) boxes.old.items }
    ensures length { length boxes.new.items ≡ length boxes.old.items }
    ensures trays { map tray boxes.new.items ≡ map (tray_losing fallen) (map tray boxes.old.items) }
    ensures room { (room : ℕ) → Every (HasRoom room) boxes.old.items → Every (HasRoom room) boxes.new.items }
{
    'actors: for actor in 0..MOST_ACTORS {
        boxes[actor].lose(fallen);
    }
}

/// Nothing waits any more for an actor that fell.
pub(crate) fn fall(boxes: &mut Vec<Mailbox>, actor: u8)
    requires length { length boxes.old.items ≡ most_actors }
    requires actor { actor < most_actors }
    ensures length { length boxes.new.items ≡ length boxes.old.items }
    ensures trays { map tray boxes.new.items ≡ with_fall (map tray boxes.old.items) actor }
    ensures room { (room : ℕ) → Every (HasRoom room) boxes.old.items → Every (HasRoom room) boxes.new.items }
{
    boxes[actor as usize].fall();
}
