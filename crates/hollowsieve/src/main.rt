// Audits a host's journal of calls.
#![tactic(auto)]

mod failure;
mod journal;
mod options;
mod report;
mod source;

use analyser::{AuditReport, Call, Done, Reply, audit, replay};
use failure::Failure;
use journal::Entry;
use options::Command;
use report::CallLine;
use source::{Line, Source};
use std::collections::BTreeMap;
use std::process::ExitCode;

// The call of an entry, with its text.
fn call_of<'a>(entry: Entry<'_>, texts: &'a BTreeMap<String, Vec<u8>>) -> Option<Call<'a>> {
    match entry {
        Entry::Load { unit, file } => {
            let text = texts.get(file)?.as_slice();
            Some(Call::Load { unit, text })
        }
        Entry::Unload { unit } => Some(Call::Unload { unit }),
    }
}

// The loads whose texts stand after all calls, by rising unit number.
fn standing<'a>(
    rt: &HostRuntime,
    calls: &[Call<'a>],
    replies: &[Reply],
) -> Result<Vec<Call<'a>>, Failure> {
    let mut loads = BTreeMap::new(rt.alloc());
    for (call, reply) in calls.iter().zip(replies.iter()) {
        match (call, reply) {
            (Call::Load { unit, text: _ }, Ok(Done::Loaded)) => {
                loads.insert(*unit, *call)?;
            }
            (Call::Unload { unit }, Ok(Done::Unloaded)) => {
                loads.remove(unit);
            }
            _ => {}
        }
    }
    Ok(loads.into_values().collect(rt.alloc())?)
}

fn show_calls(rt: &HostRuntime, lines: &[Line<'_>], replies: &[Reply]) -> Result<(), Failure> {
    for (line, reply) in lines.iter().zip(replies.iter()) {
        let shown = CallLine {
            call: line.text,
            reply: *reply,
        };
        println!(rt; "{shown}")?;
    }
    let calls = replies.len();
    let answered = replies.iter().filter(|reply| reply.is_ok()).count();
    let refused = replies.iter().filter(|reply| reply.is_err()).count();
    println!(rt; "")?;
    println!(rt; "{calls} calls, {answered} answered, {refused} refused")?;
    Ok(())
}

fn show_audit(rt: &HostRuntime, loads: usize, report: &AuditReport) -> Result<(), Failure> {
    let differ = report::differing(&report.first_further, &report.second_further);
    let asked = report.first_further.len();
    println!(rt;
        "audit: {loads} units loaded afresh, {asked} calls made of both, {differ} differ"
    )?;
    if differ > 0 {
        return Err(Failure::Disagreement);
    }
    Ok(())
}

fn audit_journal(rt: &HostRuntime, journal: Option<&str>) -> Result<(), Failure> {
    let heap = rt.alloc();
    let source = Source::read(rt, journal)?;
    let lines = source.lines(rt)?;
    let texts = source.unit_texts(rt, &lines)?;
    let calls: Vec<Call<'_>> = lines
        .iter()
        .filter_map(|line| call_of(line.entry, &texts))
        .collect(heap)?;
    let replies = replay(heap, &calls)?;
    show_calls(rt, &lines, &replies)?;
    let loads = standing(rt, &calls, &replies)?;
    // Both strike out whatever stands: the replies tell what that was.
    let unloads: Vec<Call<'_>> = (0..8).map(|unit| Call::Unload { unit }).collect(heap)?;
    let report = audit(heap, &calls, &loads, &unloads)?;
    show_audit(rt, loads.len(), &report)
}

fn run(rt: &HostRuntime) -> Result<(), Failure> {
    match options::read_args(rt)? {
        Command::Help => rt.println(options::USAGE)?,
        Command::Version => rt.println(options::VERSION)?,
        Command::Audit(journal) => audit_journal(rt, journal.as_deref())?,
    }
    Ok(())
}

fn main(rt: HostRuntime) -> ExitCode {
    match run(&rt) {
        Ok(()) => ExitCode::SUCCESS,
        Err(failure) => {
            let _ = eprintln!(rt; "hollowsieve: {failure}");
            ExitCode::FAILURE
        }
    }
}
