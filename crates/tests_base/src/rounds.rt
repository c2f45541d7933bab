//! Rounds over sites of weight 0, 255 and 1.

use qc_list::{List, OutOfMemory};
use qc_plan::{Needs, Plan, Round, Standing, Verdict};
use qc_stamp::TxId;
use std::alloc::Global;
use std::process::Abort;
use std::test::Fail;

fn plan(alloc: Global, weights: &[u8]) -> Result<Plan, OutOfMemory> {
    Ok(Plan {
        weights: List::from_slice(alloc, weights)?,
        initial: Needs::new(alloc),
        last: Needs::new(alloc),
    })
}

/// A round over the plan's sites, or `None` where none may be started.
fn start(alloc: Global, plan: &Plan, from: u8, need: u16) -> Option<Round> {
    let sites = plan.weights.items().len();
    if from as usize >= sites || sites > 16 {
        return None;
    }
    Round::start(alloc, plan, from, need).ok()
}

const TX: TxId = TxId {
    client: 1,
    life: 1,
    number: 1,
};

const CLASH: Standing = Standing::Clash { tx: TX };

const CLOSED: Standing = Standing::Closed { epoch: 2 };

const GRANTED: Standing = Standing::Granted;

const MISSING: Standing = Standing::Missing;

/// Asks all that is to be asked, and tells the sites in one number, a digit
/// for each, 9 first.
fn ask_all(round: &mut Round) -> u64 {
    let mut sites = 9u64;
    for _ in 0..17 {
        if let Some(site) = round.ask() {
            sites = sites.saturating_mul(10).saturating_add(site as u64);
        }
    }
    sites
}

/// The need, the site to begin at, the sites asked, what is noted, and what
/// the round comes to.
type Case = (u16, u8, u64, [(u8, Standing); 3], Verdict);

const CASES: [Case; 8] = [
    (
        0,
        0,
        9,
        [(0, GRANTED), (0, GRANTED), (0, GRANTED)],
        Verdict::Met,
    ),
    (
        1,
        3,
        93,
        [(3, GRANTED), (3, GRANTED), (3, GRANTED)],
        Verdict::Met,
    ),
    (
        255,
        3,
        9302,
        [(3, GRANTED), (0, GRANTED), (2, CLASH)],
        Verdict::Clash { tx: TX, site: 2 },
    ),
    (
        256,
        2,
        923,
        [(2, GRANTED), (3, GRANTED), (3, GRANTED)],
        Verdict::Met,
    ),
    (
        257,
        0,
        9023,
        [(2, GRANTED), (0, GRANTED), (3, MISSING)],
        Verdict::Short {
            got: 256,
            need: 257,
        },
    ),
    (
        257,
        0,
        9023,
        [(2, CLASH), (0, CLASH), (3, CLOSED)],
        Verdict::Closed { epoch: 2, site: 3 },
    ),
    (
        257,
        0,
        9023,
        [(2, GRANTED), (0, GRANTED), (2, GRANTED)],
        Verdict::Waiting,
    ),
    (
        300,
        1,
        9230,
        [(2, MISSING), (3, MISSING), (0, MISSING)],
        Verdict::Short { got: 0, need: 300 },
    ),
];

/// Asks, notes, and answers what was asked and what the round comes to.
fn run(round: &mut Round, notes: [(u8, Standing); 3]) -> (u64, Verdict) {
    let asked = ask_all(round);
    for (site, standing) in notes {
        round.note(site, standing);
    }
    (asked, round.verdict())
}

fn check_case(rt: &impl Abort, alloc: Global, plan: &Plan, case: Case) {
    let (need, from, asked, notes, verdict) = case;
    let Some(mut round) = start(alloc, plan, from, need) else {
        panic!(rt; "no round of {need} from {from}");
    };
    assert_eq!(rt;
        run(&mut round, notes),
        (asked, verdict),
        "{need} from {from}"
    );
}

#[test]
fn rounds_ask_and_decide(rt: HostRuntime) -> Result<(), Fail> {
    let plan = plan(rt.alloc(), &[1, 0, 255, 1])?;
    for case in CASES {
        check_case(&rt, rt.alloc(), &plan, case);
    }
    Ok(())
}

/// What is noted of a site, what the round comes to then, before and after it
/// asks, and whom it asks.
const FURTHER: [(u8, Standing, Verdict, u64); 3] = [
    (2, MISSING, Verdict::Waiting, 9),
    (1, GRANTED, Verdict::Waiting, 90),
    (0, GRANTED, Verdict::Met, 9),
];

/// Notes, asks, and answers what the round comes to before and after it asks.
fn note_and_ask(round: &mut Round, site: u8, standing: Standing) -> (Verdict, u64, Verdict) {
    round.note(site, standing);
    let before = round.verdict();
    (before, ask_all(round), round.verdict())
}

fn copied_verdict(round: &Round) -> Result<Verdict, OutOfMemory> {
    let copy = round.copy()?;
    Ok(copy.verdict())
}

/// A further site is asked for each that is missing.
fn check_further(rt: &impl Abort, alloc: Global, plan: &Plan) {
    let Some(mut round) = start(alloc, plan, 1, 2) else {
        panic!(rt; "no round");
    };
    assert!(rt; ask_all(&mut round) == 912);
    for (site, standing, verdict, asked) in FURTHER {
        let found = note_and_ask(&mut round, site, standing);
        assert!(rt; found == (verdict, asked, verdict), "site {site}");
    }
    assert!(rt; copied_verdict(&round) == Ok(Verdict::Met));
}

#[test]
fn rounds_ask_further_sites(rt: HostRuntime) -> Result<(), Fail> {
    let plan = plan(rt.alloc(), &[1, 1, 1])?;
    check_further(&rt, rt.alloc(), &plan);
    Ok(())
}
