//! A client that takes inputs, and what it is to do.

ghost use Rattle.std.specs.Prelude.{◌+◌, ◌<◌, ◌≤◌, OnOk, Some};
ghost use Rattle.qc_decl.specs.Accepted.{IsAccepted};
ghost use Rattle.tests_actors.specs.Young.{IsYoung, most_told, told_in};

use crate::declared::{three, weighed};
use crate::taken::{Said, Taken, answer, tx};
use qc_client::Client;
use qc_decl::Declaration;
use qc_list::OutOfMemory;
use qc_msg::{Command, Message, Turn};
use std::alloc::Global;
use std::process::Abort;
use tests_texts::turn_text;

/// What tells that the first transaction of client 1 began.
pub(crate) const BEGAN: &str = "tell Began { tx: TxId { client: 1, life: 1, number: 1 } }";

/// The most inputs of a test.
const MOST_INPUTS: u32 = 999;

/// The client takes a command.
fn call(
    alloc: Global,
    decl: &Declaration,
    client: &mut Client,
    age: u32,
    command: Command,
) -> Result<Turn, OutOfMemory>
    requires accepted { IsAccepted decl.now }
    requires young { IsYoung decl.now client.old age }
    requires few { age < 1000 }
    ensures { OnOk result (IsYoung decl.now client.new (age + 1)) }
{
    client.command(alloc, decl, &command)
}

/// The client learns that a request is lost.
fn lose(
    alloc: Global,
    decl: &Declaration,
    client: &mut Client,
    age: u32,
    number: u32,
) -> Result<Turn, OutOfMemory>
    requires accepted { IsAccepted decl.now }
    requires young { IsYoung decl.now client.old age }
    requires few { age < 1000 }
    ensures { OnOk result (IsYoung decl.now client.new (age + 1)) }
{
    client.lose(alloc, decl, number)
}

/// The client hears a message of number 77.
fn hear(
    alloc: Global,
    decl: &Declaration,
    client: &mut Client,
    age: u32,
    from: u8,
    message: &Message,
) -> Result<Turn, OutOfMemory>
    requires accepted { IsAccepted decl.now }
    requires young { IsYoung decl.now client.old age }
    requires few { age < 1000 }
    requires told { told_in message.now ≤ most_told }
    ensures { OnOk result (IsYoung decl.now client.new (age + 1)) }
{
    client.hear(alloc, decl, from, 77, message)
}

/// The client hears an answer. Which site sends it isn't read.
fn hear_answer(
    alloc: Global,
    decl: &Declaration,
    client: &mut Client,
    age: u32,
    to: u32,
    said: Said<'_>,
) -> Result<Turn, OutOfMemory>
    requires accepted { IsAccepted decl.now }
    requires young { IsYoung decl.now client.old age }
    requires few { age < 1000 }
    ensures { OnOk result (IsYoung decl.now client.new (age + 1)) }
{
    let answer = answer(alloc, said)?;
    hear(alloc, decl, client, age, 0, &Message::Answer { to, answer })
}

/// The client takes an input.
fn take(
    alloc: Global,
    decl: &Declaration,
    client: &mut Client,
    age: u32,
    taken: Taken<'_>,
) -> Result<Turn, OutOfMemory>
    requires accepted { IsAccepted decl.now }
    requires young { IsYoung decl.now client.old age }
    requires few { age < 1000 }
    ensures { OnOk result (IsYoung decl.now client.new (age + 1)) }
{
    match taken {
        Taken::Begin => call(alloc, decl, client, age, Command::Begin),
        Taken::Do(object, inv) => call(alloc, decl, client, age, Command::Do { object, inv }),
        Taken::Commit => call(alloc, decl, client, age, Command::Commit),
        Taken::Abort => call(alloc, decl, client, age, Command::Abort),
        Taken::Answer(to, said) => hear_answer(alloc, decl, client, age, to, said),
        Taken::Lost(number) => lose(alloc, decl, client, age, number),
        Taken::Inquiry(number) => {
            let tx = tx(1, number);
            hear(alloc, decl, client, age, 2, &Message::Inquiry { tx })
        }
        Taken::Ask(number) => {
            let tx = tx(1, number);
            hear(alloc, decl, client, age, 6, &Message::Ask { tx })
        }
    }
}

/// The messages of the last turn get the numbers from `first` on.
fn number(decl: &Declaration, client: &mut Client, age: u32, first: u32)
    requires accepted { IsAccepted decl.now }
    requires young { IsYoung decl.now client.old age }
    requires few { age < 1000 }
    requires numbers { first < 100000 }
    ensures { IsYoung decl.now client.new age }
{
    client.sent(first);
}

/// What the client does for an input, as a text. Its messages get the numbers
/// from ten times the input's place on.
fn done(
    alloc: Global,
    decl: &Declaration,
    client: &mut Client,
    place: u32,
    taken: Taken<'_>,
) -> Result<String, OutOfMemory>
    requires accepted { IsAccepted decl.now }
    requires young { IsYoung decl.now client.old place }
    requires few { place < 999 }
    ensures { OnOk result (IsYoung decl.now client.new (place + 1)) }
{
    let turn = take(alloc, decl, client, place, taken)?;
    number(decl, client, place + 1, 10 * place);
    turn_text(alloc, &turn)
}

/// The client does what is wanted for an input.
fn check_row(
    rt: &impl Abort,
    alloc: Global,
    decl: &Declaration,
    client: &mut Client,
    place: u32,
    row: (Taken<'_>, &str),
) -> Result<(), OutOfMemory>
    requires accepted { IsAccepted decl.now }
    requires young { IsYoung decl.now client.old place }
    requires few { place < 999 }
    ensures { OnOk result (IsYoung decl.now client.new (place + 1)) }
{
    let text = done(alloc, decl, client, place, row.0)?;
    assert_eq!(rt; text.as_str(), row.1, "at row {place}");
    Ok(())
}

/// The client does what the rows say, one after another.
pub(crate) fn check_rows(
    rt: &impl Abort,
    alloc: Global,
    decl: &Declaration,
    client: &mut Client,
    rows: &[(Taken<'_>, &str)],
) -> Result<(), OutOfMemory>
    requires accepted { IsAccepted decl.now }
    requires young { IsYoung decl.now client.old 0 }
{
    let mut place = 0u32;
    for row in rows {
        assert!(rt; place < MOST_INPUTS);
        check_row(rt, alloc, decl, client, place, *row)?;
        place += 1;
    }
    Ok(())
}

/// A new client does what the rows say.
#[tactic(auto, using(crate::proofs::Young::new_young))]
fn check_new(
    rt: &impl Abort,
    alloc: Global,
    decl: &Declaration,
    rows: &[(Taken<'_>, &str)],
) -> Result<(), OutOfMemory>
    requires { IsAccepted decl.now }
{
    let mut client = Client::new(alloc, 1);
    check_rows(rt, alloc, decl, &mut client, rows)
}

/// A new client 1 of `@three`, which is actor 4 and asks the sites 1, 2 and 0,
/// takes what the rows have, one after another, and does what they say. The
/// messages that it sends in row k, from 0, are numbered from 10 k on.
pub(crate) fn check_three(
    rt: &impl Abort,
    alloc: Global,
    rows: &[(Taken<'_>, &str)],
) -> Result<(), OutOfMemory> {
    let decl = three(rt, alloc)?;
    check_new(rt, alloc, &decl, rows)
}

/// The same over the declaration with weights.
pub(crate) fn check_weighed(
    rt: &impl Abort,
    alloc: Global,
    rows: &[(Taken<'_>, &str)],
) -> Result<(), OutOfMemory> {
    let decl = weighed(rt, alloc)?;
    check_new(rt, alloc, &decl, rows)
}
