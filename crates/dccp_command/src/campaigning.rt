//! `campaign`: seeds that workers run, and the counts over them.
ghost use Rattle.std.specs.Prelude.{◌≡◌, ◌++◌, IfOk, OnOk};
ghost use Rattle.dccp_command.specs.CampaignText.{AnswersUnread, arrival_text, campaign_text, count_line, report_text, run_text};
ghost use Rattle.tool_forms.specs.CampaignWords.{IsWithinBounds};
ghost use Rattle.tool_text.specs.Ends.{SinkFailed};

use dccp_io::{Sink, write_all};
use fault_campaign::{Gate, Report};
use seq_circle::NoMemory;
use std::alloc::Global;
use std::thread::Threads;
use tool_forms::Campaign;
use tool_text::{JobEnd, put, put_counted};

// Puts a count's line.
fn put_count(text: &mut Vec<u8>, name: &[u8], count: u64) -> Result<(), NoMemory>
    ensures { OnOk result (text.new.items ≡ text.old.items ++ count_line name.now count) }
{
    put_counted(text, name, count)?;
    put(text, b"\n")
}

#[tactic(auto, unfolding(crate::specs::CampaignText::run_text))]
fn put_run(text: &mut Vec<u8>, report: &Report) -> Result<(), NoMemory>
    ensures { OnOk result (text.new.items ≡ text.old.items ++ run_text report.now) }
{
    put_count(text, b"seeds ", report.seeds)?;
    put_count(text, b"events ", report.events)?;
    put_count(text, b"client_frames ", report.client_frames)?;
    put_count(text, b"server_frames ", report.server_frames)?;
    Ok(())
}

#[tactic(auto, unfolding(crate::specs::CampaignText::arrival_text))]
fn put_arrivals(text: &mut Vec<u8>, report: &Report) -> Result<(), NoMemory>
    ensures { OnOk result (text.new.items ≡ text.old.items ++ arrival_text report.now) }
{
    put_count(text, b"took ", report.took)?;
    put_count(text, b"delivered ", report.delivered)?;
    put_count(text, b"dropped ", report.dropped)?;
    put_count(text, b"synced ", report.synced)?;
    put_count(text, b"was_reset ", report.was_reset)?;
    put_count(text, b"sent_reset ", report.sent_reset)?;
    Ok(())
}

// Puts all lines of a report, in the order in which `docs/TOOL.md` lists them.
#[tactic(auto, unfolding(crate::specs::CampaignText::report_text))]
fn put_report(text: &mut Vec<u8>, report: &Report) -> Result<(), NoMemory>
    ensures { OnOk result (text.new.items ≡ text.old.items ++ report_text report.now) }
{
    put_run(text, report)?;
    put_arrivals(text, report)?;
    put_count(text, b"refused ", report.refused)?;
    put_count(text, b"settled ", report.settled)?;
    Ok(())
}

// Runs the seeds, and puts the counts over them.
#[tactic(auto, unfolding(crate::specs::CampaignText::campaign_text))]
fn counted<R: Threads + Sync, G: Gate + Sync>(
    rt: &R,
    alloc: Global,
    gate: &G,
    job: Campaign,
) -> Result<Vec<u8>, NoMemory>
    requires { IsWithinBounds job }
    ensures { IfOk result (λ text. text.items ≡ campaign_text job) }
{
    let report = fault_campaign::campaign(
        rt,
        alloc,
        gate,
        job.first,
        job.seeds,
        job.events,
        job.workers,
    )?;
    let mut text = Vec::new(alloc);
    put_report(&mut text, &report)?;
    Ok(text)
}

/// Runs a campaign, and writes the counts over its seeds, one in each line, when all have ended.
pub(crate) fn run_campaign<R: Threads + Sync, G: Gate + Sync, K: Sink>(
    rt: &R,
    alloc: Global,
    gate: &G,
    job: Campaign,
    output: &mut K,
) -> JobEnd
    requires { IsWithinBounds job }
    ensures answers { AnswersUnread (campaign_text job) result (K.taken output.old) (K.taken output.new)
        (SinkFailed (K.faults output.old) (K.faults output.new) (K.empty_takes output.old) (K.empty_takes output.new)) }
{
    let Ok(text) = counted(rt, alloc, gate, job) else {
        return JobEnd::Memory;
    };
    match write_all(output, &text) {
        Err(_) => JobEnd::Write,
        Ok(()) => JobEnd::Done,
    }
}
