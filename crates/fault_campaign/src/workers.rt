//! Workers, which claim seeds, run them and add up their counts.
//!
//! A worker's loop ends because a claimer's numbers rise and stay below a limit, so no bound on its turns is written.
//! One record says what workers begin with, and one what they end with (`CanWork`, `HaveWorked`): these are the only
//! clauses of the closures that `join` takes.
ghost use Rattle.std.specs.Prelude.{◌≡◌, ◌+◌, ◌^◌, ◌<◌, ◌≤◌, IfOk};
ghost use Rattle.std.specs.Thread.{IsSync};
ghost use Rattle.fault_campaign.specs.Reports.{size};
ghost use Rattle.fault_campaign.specs.Totals.{CanWork, HaveWorked, MayBegin, both_reports, totals};

use crate::Report;
use crate::run::{EventKit, run_seed_with};
use campaign_claims::{
    Claimer, Claims, Gate, a_claim_in_vain_ends_the_numbers, make_claims, numbers_once_add_up,
};
use seq_circle::NoMemory;
use std::alloc::Global;
use std::thread::{Threads, join};

// What all workers do: seeds from the first on, each with this many events.
#[derive(Clone, Copy)]
struct Job {
    first: u64,
    events: u32,
}

// One worker: it runs the seeds that it claims until a claim gives none. If it lacks memory, it claims no more.
fn work<G: Gate>(
    alloc: Global,
    gate: &G,
    claims: &Claims,
    claimer: Claimer,
    job: Job,
) -> (Claimer, Result<Report, NoMemory>)
    requires same { claimer.claims ≡ claims.now }
    requires can { CanWork 1 job claimer.view }
    ensures { HaveWorked 1 job claims.now claimer.view result.0 result.1 }
{
    let mut claimer = claimer;
    let mut report = Report::nothing();
    let mut again = EventKit::new();
    while let Some(index) = claimer.begin(claims, gate) {
        match run_seed_with(alloc, &mut again, job.first + index, job.events) {
            Ok(one) => report = report.plus(&one),
            Err(none) => return (claimer, Err(none)),
        }
    }
    (claimer, Ok(report))
}

fn both(one: Result<Report, NoMemory>, other: Result<Report, NoMemory>) -> Result<Report, NoMemory>
    requires few { IfOk one (λ r. size r < 2 ^ 62) }
    requires others { IfOk other (λ r. size r < 2 ^ 62) }
    ensures { result ≡ both_reports one other }
{
    let one = one?;
    let other = other?;
    Ok(one.plus(&other))
}

// Runs this many workers, one half of them at the same time as the other.
fn work_beside<R: Threads + Sync, G: Gate + Sync>(
    rt: &R,
    alloc: Global,
    gate: &G,
    claims: &Claims,
    claimer: Claimer,
    job: Job,
    workers: u8,
) -> (Claimer, Result<Report, NoMemory>)
    requires { MayBegin workers job claims.now claimer }
    ensures { HaveWorked workers job claims.now claimer.view result.0 result.1 }
{
    if workers == 1 {
        return work(alloc, gate, claims, claimer, job);
    }
    let mut claimer = claimer;
    let other = match claimer.split(claims) {
        Ok(other) => other,
        Err(none) => return (claimer, Err(none)),
    };
    let few = workers / 2;
    let more = workers - few;
    let ((mut mine, one), (theirs, another)) = join(
        rt,
        move || -> (Claimer, Result<Report, NoMemory>)
            requires row { IsSync R.row × IsSync G.row }
            requires may { MayBegin more job claims.now claimer }
            ensures { HaveWorked more job claims.entry.now claimer.view result.0 result.1 }
        { work_beside(rt, alloc, gate, claims, claimer, job, more) },
        move || -> (Claimer, Result<Report, NoMemory>)
            requires row { IsSync R.row × IsSync G.row }
            requires may { MayBegin few job claims.now other }
            ensures { HaveWorked few job claims.entry.now other.view result.0 result.1 }
        { work_beside(rt, alloc, gate, claims, other, job, few) },
    );
    mine.join(claims, theirs);
    (mine, both(one, another))
}

/// Runs `seeds` seeds from the first on (own), each once and with `events` events, by `workers` workers at the same
/// time, and adds their reports. The answer is the same for every number of workers and for every gate: the fields of
/// all seeds' reports, added up.
///
/// A worker claims the next seed, calls the gate with the number that it claimed, runs the seed and adds its report,
/// until a claim gives none. `NoMemory`, if one of them had none, is returned when all have ended.
pub fn campaign<R: Threads + Sync, G: Gate + Sync>(
    rt: &R,
    alloc: Global,
    gate: &G,
    first: u64,
    seeds: u32,
    events: u32,
    workers: u8,
) -> Result<Report, NoMemory>
    requires seeds { 1 ≤ seeds × seeds ≤ 100000 }
    requires events { 1 ≤ events × events ≤ 4096 }
    requires workers { 1 ≤ workers × workers ≤ 16 }
    requires last { first + seeds ≤ 2 ^ 64 }
    ensures { IfOk result (λ report. report ≡ totals first seeds events) }
{
    numbers_once_add_up();
    a_claim_in_vain_ends_the_numbers();
    let (claims, claimer) = make_claims(alloc, u64::from(seeds))?;
    let job = Job { first, events };
    let (last, report) = work_beside(rt, alloc, gate, &claims, claimer, job, workers);
    let _ = claims.close(last);
    report
}
