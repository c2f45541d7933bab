//! The relation of a type, and the triples that show it exact.

ghost use Rattle.std.specs.Prelude.{◌≡◌, ◌<◌, ◌≤◌, length, option_map, All, IfSome};
ghost use Rattle.qc_cert.specs.declared.triple.Triple.{Triple};
ghost use Rattle.qc_table.specs.Depends.{relation_of};
ghost use Rattle.qc_decl.specs.Limits.{most_events, most_invocations, most_states};
ghost use Rattle.qc_accept.specs.Answers.{IsReading};
ghost use Rattle.qc_accept.specs.Types.{AreFew, pairs_in, pair_in, event_of_text, triples_in, triple_in, out_in};
ghost use Rattle.qc_accept.specs.Types.{with_new, are_few_alike};
ghost use Rattle.qc_accept.specs.Views.{data_of, events_in, names_in, words_in};

use crate::fault::Wrong;
use crate::kinds::Words;
use crate::names::Events;
use crate::{fields, words};
use qc_cert::Triple;
use qc_decl::{MOST_ALIKE_TRIPLES, MOST_STATES, MOST_TRIPLES};
use qc_list::List;
use qc_table::{Event, Pair, Relation};
use std::alloc::Global;
use toml::Value;

/// The relation whose pairs an array's items are, each `INV EVENT`.
pub(crate) fn relation(
    alloc: Global,
    words: &Words<'_>,
    events: &Events,
    items: &[Value],
) -> Result<Relation, Wrong>
    requires words { AreFew (words_in words.now) }
    requires events { length (events_in events.now) ≤ most_events }
    ensures { IsReading (λ r. r) result (option_map relation_of (pairs_in (words_in words.now)
        (events_in events.now) (data_of items.now))) }
{
    let mut pairs = List::new(alloc);
    for item in items {
        pairs.push(pair(words, events, fields::text(item)?).ok_or(Wrong::Form)?)?;
    }
    Ok(Relation::new(pairs.items()))
}

/// The pair that a text is.
fn pair(words: &Words<'_>, events: &Events, text: &str) -> Option<Pair>
    requires words { AreFew (words_in words.now) }
    requires events { length (events_in events.now) ≤ most_events }
    ensures pair { result ≡ pair_in (words_in words.now) (events_in events.now) text.now }
    ensures within { IfSome result (λ p. (p.inv < most_invocations) × (p.event < most_events)) }
{
    let (inv, event) = words::two(text)?;
    Some(Pair {
        inv: words.invs.number(inv)?,
        event: event_number(words, events, event)?,
    })
}

/// The number of the event that a text is, as `INV:RESP`.
pub(crate) fn event_number(words: &Words<'_>, events: &Events, text: &str) -> Option<u8>
    requires words { AreFew (words_in words.now) }
    requires events { length (events_in events.now) ≤ most_events }
    ensures number { result ≡ event_of_text (words_in words.now) (events_in events.now) text.now }
    ensures within { IfSome result (λ n. n < length (events_in events.now)) }
{
    let (inv, resp) = text.split_once(':')?;
    events.number(Event {
        inv: words.invs.number(inv)?,
        resp: words.resps.number(resp)?,
    })
}

/// The triples that an array's items are. There are few enough, also with the
/// same two states.
pub(crate) fn triples(
    alloc: Global,
    words: &Words<'_>,
    events: &Events,
    items: &[Value],
) -> Result<List<Triple>, Wrong>
    requires words { AreFew (words_in words.now) }
    requires events { length (events_in events.now) ≤ most_events }
    ensures { IsReading (λ ts. ts) result (triples_in (words_in words.now) (events_in events.now) (data_of items.now)) }
{
    if items.len() > MOST_TRIPLES {
        return Err(Wrong::Form);
    }
    let mut triples = List::new(alloc);
    for item in items {
        triples.push(triple(words, events, fields::text(item)?).ok_or(Wrong::Form)?)?;
    }
    if !are_few_alike(triples.items()) {
        return Err(Wrong::Form);
    }
    Ok(triples)
}

/// The triple that a text is, as `VIEW LOG OUT`.
fn triple(words: &Words<'_>, events: &Events, text: &str) -> Option<Triple>
    requires words { AreFew (words_in words.now) }
    requires events { length (events_in events.now) ≤ most_events }
    ensures triple { result ≡ triple_in (words_in words.now) (events_in events.now) text.now }
    ensures within { IfSome result (λ t. (t.view < length (names_in words.now.states))
        × (t.log < length (names_in words.now.states))) }
{
    let (view, log, out) = words::three(text)?;
    Some(Triple {
        view: words.states.number(view)?,
        log: words.states.number(log)?,
        out: events_out(words, events, out)?,
    })
}

/// The set of events that a text is: `-`, or distinct events joined by `,`.
fn events_out(words: &Words<'_>, events: &Events, text: &str) -> Option<u64>
    requires words { AreFew (words_in words.now) }
    requires events { length (events_in events.now) ≤ most_events }
    ensures { result ≡ out_in (words_in words.now) (events_in events.now) text.now }
{
    if text == "-" {
        return Some(0);
    }
    let mut out = 0;
    for part in text.split(',') {
        out = with_event(out, event_number(words, events, part)?)?;
    }
    Some(out)
}

/// The set with an event that it doesn't have yet.
fn with_event(out: u64, event: u8) -> Option<u64>
    requires { event < most_events }
    ensures { result ≡ with_new out event }
{
    if out >> event & 1 == 1 {
        return None;
    }
    Some(out | 1 << event)
}

/// Whether not too many triples have the same two states.
fn are_few_alike(triples: &[Triple]) -> bool
    requires { All (λ (t : Triple). (t.view < most_states) × (t.log < most_states)) triples.now }
    ensures { result ≡ are_few_alike triples.now }
{
    let mut counts = [0u16; MOST_STATES * MOST_STATES];
    for triple in triples {
        let place = MOST_STATES * triple.view as usize + triple.log as usize;
        if counts[place] == MOST_ALIKE_TRIPLES {
            return false;
        }
        counts[place] += 1;
    }
    true
}
