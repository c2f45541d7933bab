//! Work on slices of lines, each linear in their lengths.

ghost use Rattle.std.specs.Prelude.{◌≡◌, ◌≤◌, ◌<◌, true, false, ◌↔◌, ◌++◌, ◌==◌, ℕ, IfOk, IfSome, IsTrue, length, take};
ghost use Rattle.std.specs.List.{AllByRecursion, list_all};
ghost use Rattle.std.specs.declared.cmp.Ordering.TheVariants.{Less};
ghost use Rattle.qc_entry.specs.Line.{line_cmp, IsAscending};
ghost use Rattle.qc_entry.specs.Log.{union, of_object, since_stamp, without};

use crate::Line;
use qc_list::OutOfMemory;
use qc_stamp::Stamp;
use std::alloc::Global;
use std::cmp::Ordering;

/// The lines of two sorted slices in order, each once. What both begin with
/// alike is copied at once.
pub(crate) fn merged(alloc: Global, a: &[Line], b: &[Line]) -> Result<Vec<Line>, OutOfMemory>
    ensures { IfOk result (λ v. v.items ≡ union a.now b.now) }
{
    let n = shared(a, b);
    let mut out = Vec::with_capacity(alloc, a.len())?;
    out.extend_from_slice(&a[..n])?;
    let mut i = n;
    let mut j = n;
    'lines: while i < a.len() && j < b.len() {
        match a[i].compare(&b[j]) {
            Ordering::Less => {
                out.push(a[i])?;
                i += 1;
            }
            Ordering::Equal => {
                out.push(a[i])?;
                i += 1;
                j += 1;
            }
            Ordering::Greater => {
                out.push(b[j])?;
                j += 1;
            }
        }
    }
    out.extend_from_slice(&a[i..])?;
    out.extend_from_slice(&b[j..])?;
    Ok(out)
}

/// The lines of the first sorted slice that aren't in the second: all of them
/// where they stand behind those, as new lines do behind what an epoch began with.
/// Else what both begin with alike is passed over: a site's records give most of
/// its log.
pub(crate) fn rest_of(alloc: Global, a: &[Line], b: &[Line]) -> Result<Vec<Line>, OutOfMemory>
    requires first { IsAscending a.now }
    requires second { IsAscending b.now }
    ensures { IfOk result (λ v. v.items ≡ without a.now b.now) }
{
    if are_behind(a, b) {
        return Vec::from_slice(alloc, a);
    }
    let n = shared(a, b);
    others_of(alloc, &a[n..], &b[n..])
}

/// Whether sorted lines stand behind all others, so that none of them is there.
fn are_behind(lines: &[Line], others: &[Line]) -> bool
    requires first { IsAscending lines.now }
    requires second { IsAscending others.now }
    ensures { IsTrue result → without lines.now others.now ≡ lines.now }
{
    match lines.first() {
        None => true,
        Some(first) => all_before(others, first),
    }
}

/// The same, line by line.
fn others_of(alloc: Global, a: &[Line], b: &[Line]) -> Result<Vec<Line>, OutOfMemory>
    requires first { IsAscending a.now }
    requires second { IsAscending b.now }
    ensures { IfOk result (λ v. v.items ≡ without a.now b.now) }
{
    let mut out = Vec::new(alloc);
    let mut i = 0;
    let mut j = 0;
    'lines: while i < a.len() && j < b.len() {
        match a[i].compare(&b[j]) {
            Ordering::Less => {
                out.push(a[i])?;
                i += 1;
            }
            Ordering::Equal => {
                i += 1;
                j += 1;
            }
            Ordering::Greater => {
                j += 1;
            }
        }
    }
    out.extend_from_slice(&a[i..])?;
    Ok(out)
}

/// The lines with a greater stamp.
pub(crate) fn later(alloc: Global, lines: &[Line], stamp: Stamp) -> Result<Vec<Line>, OutOfMemory>
    ensures { IfOk result (λ v. v.items ≡ since_stamp lines.now stamp) }
{
    lines
        .iter()
        .filter(|l| stamp.compare(&l.stamp).is_lt())
        .copied()
        .collect(alloc)
}

/// Whether all lines are of this object.
pub(crate) fn all_are_of(lines: &[Line], object: u8) -> bool
    ensures { result ≡ list_all (λ l. l.object == object) lines.now }
{
    lines.iter().all(|l| l.object == object)
}

/// The lines of one object, in memory that holds just these: messages keep it.
pub(crate) fn of_one(alloc: Global, lines: &[Line], object: u8) -> Result<Vec<Line>, OutOfMemory>
    ensures { IfOk result (λ v. v.items ≡ of_object lines.now object) }
{
    let count = lines.iter().filter(|l| l.object == object).count();
    let mut found = Vec::with_capacity(alloc, count)?;
    for line in lines {
        if line.object == object {
            found.push(*line)?;
        }
    }
    Ok(found)
}

/// Lines and then others, in memory that holds just these.
pub(crate) fn both(alloc: Global, lines: &[Line], rest: &[Line]) -> Result<Vec<Line>, OutOfMemory>
    ensures { IfOk result (λ v. v.items ≡ lines.now ++ rest.now) }
{
    let mut all = Vec::with_capacity(alloc, lines.len().saturating_add(rest.len()))?;
    all.extend_from_slice(lines)?;
    all.extend_from_slice(rest)?;
    Ok(all)
}

/// What belongs behind sorted lines of all that others bring, or `None` where
/// some of it may belong between them. Logs of one object mostly begin alike,
/// and then nothing is merged.
pub(crate) fn behind<'a>(lines: &[Line], others: &'a [Line]) -> Option<&'a [Line]>
    requires { IsAscending lines.now }
    ensures { IfSome result (λ rest. union lines.now others.now ≡ lines.now ++ rest.now) }
{
    let rest = &others[shared(lines, others)..];
    match rest.first() {
        Some(first) if !all_before(lines, first) => None,
        _ => Some(rest),
    }
}

/// How many lines two lists begin with alike.
fn shared(a: &[Line], b: &[Line]) -> usize
    ensures first { result ≤ length a.now }
    ensures second { result ≤ length b.now }
    ensures alike { take result a.now ≡ take result b.now }
{
    let mut n = 0;
    'lines: while n < a.len() && n < b.len() && a[n] == b[n] {
        n += 1;
    }
    n
}

/// Whether lines ascend. One line does, and so does none.
pub(crate) fn ascend(lines: &[Line]) -> bool
    ensures ascending { result ≡ true → IsAscending lines.now }
    ensures others { result ≡ false → 1 < length lines.now }
{
    let mut count = 0;
    'lines: while count < lines.len() {
        if !all_before(&lines[..count], &lines[count]) {
            return false;
        }
        count += 1;
    }
    true
}

/// Whether each of the sorted lines comes before another line.
fn all_before(lines: &[Line], line: &Line) -> bool
    requires { IsAscending lines.now }
    ensures { IsTrue result ↔ AllByRecursion (λ l. line_cmp l line.now ≡ Less) lines.now }
{
    match lines.last() {
        None => true,
        Some(last) => last.compare(line).is_lt(),
    }
}
