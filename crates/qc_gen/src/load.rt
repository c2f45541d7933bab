//! The text of a load.

ghost use Rattle.std.specs.Prelude.{◌≡◌, ◌*◌, ◌<◌, ◌++◌, IfOk, OnOk, length};
ghost use Rattle.qc_gen.specs.Load.{client_of, load_text, modulus, next_state, transaction_lines, write_of};
ghost use Rattle.qc_script.specs.Written.{actor_word, text_of_lines};
ghost use Rattle.qc_script.specs.declared.actor.ActorName.TheVariants.{Client};

use itoa::Buffer;
use qc_list::OutOfMemory;
use std::alloc::Global;

/// The generator's numbers are below this one, a prime.
const MODULUS: u32 = 65_537;

/// How many clients take turns: those of `@three`.
const CLIENTS: u32 = 3;

/// The script of a load of `count` transactions, from a seed below 65,537. Its
/// text is the same each time, with 46 bytes for each transaction. The only error
/// is want of memory.
pub fn load_script(alloc: Global, count: u32, seed: u32) -> Result<Vec<u8>, OutOfMemory>
    requires { seed < modulus }
    ensures text { IfOk result (λ v. v.items ≡ load_text count seed) }
    ensures bytes { IfOk result (λ v. length v.items ≡ 46 * count) }
{
    let mut text = Vec::new(alloc);
    let mut state = seed;
    'transactions: for number in 0..count {
        state = next_state(state);
        put_transaction(&mut text, number, state)?;
    }
    Ok(text)
}

/// The generator's next number.
fn next_state(state: u32) -> u32
    requires { state < modulus }
    ensures next { result ≡ next_state state }
    ensures below { result < modulus }
{
    (75 * state + 74) % MODULUS
}

/// Adds the lines of the transaction with this number, for which the generator
/// gave this number of its own.
fn put_transaction(text: &mut Vec<u8>, number: u32, state: u32) -> Result<(), OutOfMemory>
    ensures { OnOk result (text.new.items ≡ text.old.items ++ text_of_lines (transaction_lines number state)) }
{
    let client = number % CLIENTS;
    put(text, "phase\n")?;
    put_command(text, client, " begin\n")?;
    put_command(text, client, " do x ")?;
    put(text, write_of(state))?;
    put(text, "\n")?;
    put_command(text, client, " do x R\n")?;
    put_command(text, client, " commit\n")
}

/// Adds the client and what it is asked.
fn put_command(text: &mut Vec<u8>, client: u32, asked: &str) -> Result<(), OutOfMemory>
    ensures { OnOk result (text.new.items ≡ text.old.items ++ (actor_word (Client client) ++ asked.now)) }
{
    let mut digits = Buffer::new();
    put(text, "c")?;
    put(text, digits.format(client))?;
    put(text, asked)
}

/// Adds words.
fn put(text: &mut Vec<u8>, words: &str) -> Result<(), OutOfMemory>
    ensures { OnOk result (text.new.items ≡ text.old.items ++ words.now) }
{
    text.extend_from_slice(words.as_bytes())
}

/// What is written for one of the generator's numbers: its lowest bit.
fn write_of(state: u32) -> &'static str
    ensures { result.now ≡ write_of state }
{
    if state % 2 == 1 { "W1" } else { "W0" }
}
