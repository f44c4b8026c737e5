// Auditing a history: reading it, judging it, and reporting what was found.
ghost use Rattle.std.specs.Prelude.{◌≡◌, ◌≢◌, ℕ, ◌⊎◌, IfOk, IsOk, List};
ghost use Rattle.port_io.specs.Ports.{Risen, Gains};
ghost use Rattle.history_book.specs.declared.item.Item.{Item};
ghost use Rattle.history_book.specs.Isolation.{Isolated};
ghost use Rattle.omid_top.specs.Promise.{GainsFront};
ghost use Rattle.history_json.specs.History.{AreItems};
ghost use Rattle.omid_top.specs.Commands.{Audits};
ghost use Rattle.omid_top.specs.Audit.{IsReportOn, IsVerdict, Reported, ReportedFront, IsFairTo, report_status, report_text};

use crate::report::Report;
use crate::standard::Standard;
use crate::{Status, print};
use history_book::Item;
use history_json::read_history;
use history_reading::HistoryFault;
use port_io::{ReadStop, Sink, Source, read_up_to};
use read_sets::{SerialVerdict, judge_serial};
use si_judge::{Verdict, judge};
use stamp_base::{BYTE_LIMIT, NoMemory};
use std::alloc::Global;

/// Reads a history of either format, judges it by what is asked, and writes the report.
pub fn audit_source<S: Source, K: Sink>(
    alloc: Global,
    asked: Standard,
    source: &mut S,
    sink: &mut K,
) -> Status
    ensures audit { Audits asked result.code (S.left source.old) (S.left source.new) (K.held sink.old) (K.held sink.new) }
    ensures source_failed { result.code ≡ 4 → Risen (S.faults source.old) (S.faults source.new) × (sink.new ≡ sink.old) }
    ensures source_worked { result.code ≢ 4 → S.faults source.new ≡ S.faults source.old }
    ensures sink_failed { result.code ≡ 5 → Risen (K.faults sink.old) (K.faults sink.new) }
    ensures sink_worked { result.code ≢ 5 → K.faults sink.new ≡ K.faults sink.old }
    ensures no_memory { result.code ≡ 6 → sink.new ≡ sink.old }
{
    match read_up_to(alloc, source, BYTE_LIMIT) {
        Ok(bytes) => audit_bytes(alloc, asked, &bytes, sink),
        Err(ReadStop::TooLong) => reported(sink, &Report::NotAnItem { line: 0 }),
        Err(ReadStop::Failed) => Status::SOURCE_FAILED,
        Err(ReadStop::NoMemory) => Status::NO_MEMORY,
    }
}

/// Judges the history that the bytes are, and writes the report.
fn audit_bytes<K: Sink>(alloc: Global, asked: Standard, bytes: &[u8], sink: &mut K) -> Status
    ensures audited { IsVerdict result.code → Reported asked bytes.now result.code (K.held sink.old) (K.held sink.new) }
    ensures fair { (items : List Item) → AreItems bytes.now items → IsFairTo asked items result.code }
    ensures sink_failed { result.code ≡ 5 → Risen (K.faults sink.old) (K.faults sink.new) }
    ensures sink_worked { result.code ≢ 5 → K.faults sink.new ≡ K.faults sink.old }
    ensures cut { result.code ≡ 5 → ReportedFront asked bytes.now (K.held sink.old) (K.held sink.new) }
    ensures no_memory { result.code ≡ 6 → sink.new ≡ sink.old }
    ensures codes { IsVerdict result.code ⊎ (result.code ≡ 5) ⊎ (result.code ≡ 6) }
{
    match report_on(alloc, asked, bytes) {
        Ok(report) => reported(sink, &report),
        Err(NoMemory) => Status::NO_MEMORY,
    }
}

/// Writes the report's line, and gives its status.
fn reported<K: Sink>(sink: &mut K, report: &Report) -> Status
    ensures told { IsVerdict result.code → (report_status report.now ≡ result.code) × Gains (K.held sink.old) (K.held sink.new) (report_text report.now) }
    ensures sink_failed { result.code ≡ 5 → Risen (K.faults sink.old) (K.faults sink.new) }
    ensures sink_worked { result.code ≢ 5 → K.faults sink.new ≡ K.faults sink.old }
    ensures cut { result.code ≡ 5 → GainsFront (K.held sink.old) (K.held sink.new) (report_text report.now) }
    ensures codes { IsVerdict result.code ⊎ (result.code ≡ 5) }
{
    match print::print_report(sink, report) {
        Ok(()) => report.status(),
        Err(_) => Status::SINK_FAILED,
    }
}

/// What is found of the history that the bytes are.
fn report_on(alloc: Global, asked: Standard, bytes: &[u8]) -> Result<Report, NoMemory>
    ensures { IfOk result (λ report. IsReportOn asked bytes.now report) }
{
    match read_history(alloc, bytes) {
        Ok(items) => judged(alloc, asked, &items),
        Err(HistoryFault::At { line }) => Ok(Report::NotAnItem { line }),
        Err(HistoryFault::NoMemory) => Err(NoMemory),
    }
}

/// What is found of items, whichever bytes they are. Isolation is judged first. No judge needs memory.
fn judged(alloc: Global, asked: Standard, items: &[Item]) -> Result<Report, NoMemory>
    ensures always { IsOk result }
    ensures right { IfOk result (λ report. (bytes : List ℕ) → AreItems bytes items.now → IsReportOn asked bytes report) }
{
    match judge(alloc, items)? {
        Verdict::Isolated => judged_isolated(alloc, asked, items),
        Verdict::Broken {
            rule,
            first,
            second,
        } => Ok(Report::Broken {
            rule,
            first,
            second,
        }),
    }
}

/// What is found of items that are isolated.
fn judged_isolated(alloc: Global, asked: Standard, items: &[Item]) -> Result<Report, NoMemory>
    requires { Isolated items.now }
    ensures always { IsOk result }
    ensures right { IfOk result (λ report. (bytes : List ℕ) → AreItems bytes items.now → IsReportOn asked bytes report) }
{
    match asked {
        Standard::Isolated => Ok(Report::Isolated { items: items.len() }),
        Standard::Strict => judged_strictly(alloc, items),
    }
}

/// What is found of isolated items that shall be serial too.
fn judged_strictly(alloc: Global, items: &[Item]) -> Result<Report, NoMemory>
    requires { Isolated items.now }
    ensures always { IsOk result }
    ensures right { IfOk result (λ report. (bytes : List ℕ) → AreItems bytes items.now →
        IsReportOn Standard.Strict bytes report) }
{
    match judge_serial(alloc, items)? {
        SerialVerdict::Serial => Ok(Report::Isolated { items: items.len() }),
        SerialVerdict::Crossed { read, placed } => Ok(Report::Crossed { read, placed }),
    }
}
