//! Sets of events with a table of bits, which tells in as many steps as a set
//! has pieces whether one of up to 256 sets is within it, whatever they are.

ghost use Rattle.std.specs.Prelude.{◌≡◌, ℕ, ◌^◌, ◌<◌, ◌≤◌, ◌||◌, [], All, IfOk, OnOk, bit_and, length};
ghost use Rattle.qc_cert.specs.Groups.{any_within, parts_within, sets_of};
ghost use Rattle.qc_cert.specs.Tables.{AreLeft, AreRows, IsLeft, IsRow, IsWord, keeps, most_sets, piece};
ghost use Rattle.qc_table.specs.Limits.{most_events};
ghost use Rattle.qc_table.specs.Sets.{is_within, with_member};

use qc_list::OutOfMemory;
use std::alloc::Global;
use std::marker::Model;
use std::mem;

/// The most sets of a block.
pub(crate) const MOST_SETS: usize = 256;

/// How many pieces of four events a set has.
const PIECES: usize = 16;

/// How many choices of four events there are.
const CHOICES: usize = 16;

/// For each of 256 sets a bit.
#[derive(Clone, Copy)]
pub(crate) struct Row {
    pub(crate) first: u64,
    pub(crate) second: u64,
    pub(crate) third: u64,
    pub(crate) fourth: u64,
}

/// Up to 256 sets of events, and for each piece of four events and each choice
/// of these the sets of whose piece none but these are. Contracts see the sets.
#[derive(Drop)]
pub(crate) struct Block {
    sets: Vec<u64>,
    rows: Vec<Row>,
}

impl Model for Block {
    ghost use Rattle.std.specs.Prelude.{List, ℕ};
    ghost use Rattle.qc_cert.specs.Tables.{IsTable};

    ghost Value = { List ℕ };

    ghost view = { λ b. b.sets.items };

    ghost invariant = { λ b. IsTable b.sets.items b.rows.items };
}

impl Block {
    /// A block of these sets.
    pub(crate) fn new(alloc: Global, sets: Vec<u64>) -> Result<Block, OutOfMemory>
        requires few { length sets.items ≤ most_sets }
        requires small { All (λ set. set < 2 ^ 64) sets.items }
        ensures { IfOk result (λ b. b ≡ sets.items) }
    {
        let rows = rows(alloc, &sets)?;
        Ok(Block { sets, rows })
    }

    /// Whether one of the sets is within this one.
    pub(crate) fn covers(&self, out: u64) -> bool
        ensures { result ≡ any_within self.now out }
    {
        let _ = &self.sets;
        let left = self.left(out);
        left.first | left.second | left.third | left.fourth != 0
    }

    /// The sets that are within this one, each by its bit.
    fn left(&self, out: u64) -> Row
        ensures { IsLeft self.now out 16 result }
    {
        let mut left = Row {
            first: u64::MAX,
            second: u64::MAX,
            third: u64::MAX,
            fourth: u64::MAX,
        };
        for number in 0..PIECES {
            left = both(left, self.kept(out, number));
        }
        left
    }

    /// The sets of whose piece none but events of this set are.
    #[inline(always)]
    fn kept(&self, out: u64, number: usize) -> Row
        requires { number < 16 }
        ensures { IsRow self.now number (piece out number) result }
    {
        self.rows[number * CHOICES + piece(out, number) as usize]
    }
}

/// Adds a set to the rest, of which a block is made first where it is full.
pub(crate) fn add(
    alloc: Global,
    blocks: &mut Vec<Block>,
    rest: &mut Vec<u64>,
    set: u64,
) -> Result<(), OutOfMemory>
    requires few { length rest.old.items ≤ most_sets }
    requires small { All (λ set. set < 2 ^ 64) rest.old.items }
    ensures few { length rest.new.items ≤ most_sets }
    ensures small { All (λ set. set < 2 ^ 64) rest.new.items }
    ensures added { OnOk result ((out : ℕ) → parts_within (sets_of blocks.new.items rest.new.items) out
        ≡ (parts_within (sets_of blocks.old.items rest.old.items) out || is_within set out)) }
{
    if rest.len() >= MOST_SETS {
        close(alloc, blocks, rest)?;
    }
    rest.push(set)?;
    Ok(())
}

/// Makes a block of sets, of which none are left.
pub(crate) fn close(
    alloc: Global,
    blocks: &mut Vec<Block>,
    rest: &mut Vec<u64>,
) -> Result<(), OutOfMemory>
    requires few { length rest.old.items ≤ most_sets }
    requires small { All (λ set. set < 2 ^ 64) rest.old.items }
    ensures none { rest.new.items ≡ [] }
    ensures closed { OnOk result ((out : ℕ) → parts_within (sets_of blocks.new.items rest.new.items) out
        ≡ parts_within (sets_of blocks.old.items rest.old.items) out) }
{
    let sets = mem::replace(rest, Vec::new(alloc));
    let block = Block::new(alloc, sets)?;
    blocks.push(block)?;
    Ok(())
}

/// Whether one of the sets of some blocks is within this one.
pub(crate) fn covers(blocks: &[Block], out: u64) -> bool
    ensures { result ≡ parts_within blocks.now out }
{
    for block in blocks {
        if block.covers(out) {
            return true;
        }
    }
    false
}

/// Whether one of some sets is within this one. All are looked at, also behind
/// one that is: without a way out the loop takes several at a time.
pub(crate) fn any_within(sets: &[u64], out: u64) -> bool
    ensures { result ≡ any_within sets.now out }
{
    let mut covered = false;
    for set in sets {
        covered |= *set & out == *set;
    }
    covered
}

/// The bits that two rows have both.
#[inline(always)]
fn both(a: Row, b: Row) -> Row
    ensures first { result.first ≡ bit_and a.first b.first }
    ensures second { result.second ≡ bit_and a.second b.second }
    ensures third { result.third ≡ bit_and a.third b.third }
    ensures fourth { result.fourth ≡ bit_and a.fourth b.fourth }
{
    Row {
        first: a.first & b.first,
        second: a.second & b.second,
        third: a.third & b.third,
        fourth: a.fourth & b.fourth,
    }
}

/// The piece of a set with this number: four events.
#[inline(always)]
fn piece(set: u64, number: usize) -> u64
    requires { number < 16 }
    ensures { result ≡ piece set number }
{
    set >> (4 * number) & 15
}

/// The rows of sets.
fn rows(alloc: Global, sets: &[u64]) -> Result<Vec<Row>, OutOfMemory>
    ensures all { IfOk result (λ v. length v.items ≡ 256) }
    ensures rows { IfOk result (λ v. AreRows sets.now v.items) }
{
    let mut rows = Vec::new(alloc);
    'rows: for place in 0..PIECES * CHOICES {
        rows.push(row_of(sets, place / CHOICES, (place % CHOICES) as u64))?;
    }
    Ok(rows)
}

/// The row of a piece and a choice of its events.
fn row_of(sets: &[u64], number: usize, some: u64) -> Row
    requires { number < 16 }
    ensures { IsRow sets.now number some result }
{
    Row {
        first: word(sets, 0, number, some),
        second: word(sets, 64, number, some),
        third: word(sets, 128, number, some),
        fourth: word(sets, 192, number, some),
    }
}

/// The bits of 64 sets from a place on.
fn word(sets: &[u64], from: usize, number: usize, some: u64) -> u64
    requires number { number < 16 }
    requires from { from < most_sets }
    ensures { IsWord sets.now from number some result }
{
    let mut word = 0;
    for k in 0..64 {
        if keeps(sets, from + k, number, some) {
            word = with_bit(word, k as u32);
        }
    }
    word
}

/// A word with a bit more.
pub(crate) fn with_bit(word: u64, k: u32) -> u64
    requires { k < most_events }
    ensures { result ≡ with_member word k }
{
    word | 1 << k
}

/// Whether there is a set at a place whose piece has none but these events.
fn keeps(sets: &[u64], place: usize, number: usize, some: u64) -> bool
    requires { number < 16 }
    ensures { result ≡ keeps sets.now place number some }
{
    match sets.get(place) {
        Some(set) => {
            let four = piece(*set, number);
            four & some == four
        }
        None => false,
    }
}
