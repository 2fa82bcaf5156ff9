// "Answers by number": the documents' number of each answer, and what is told beside it.
#![tactic(auto)]

ghost use Rattle.std.specs.Prelude.{◌≡◌, ℕ};
ghost use Rattle.store.specs.Refusals.{number_of};
ghost use Rattle.store.specs.Answers.{told_no, told_count, located, list_number, list_rows, repair_number, repair_entries, report_number};
ghost use Rattle.exchange.specs.Told.{import_number, import_records, export_number, exported_length, exported_passed};
ghost use Rattle.polishing.specs.Told.{rule_number, clearing_yes};

use exchange::{ExportRefusal, Exported, ImportRefusal};
use polishing::RuleRefusal;
use store::{ListRefusal, Part, Refusal, RepairRefusal, ReportRefusal};

// A refusal, by its number.
pub trait Numbered {
    ghost number: { Self → ℕ };

    fn number(&self) -> u64
        ensures { result ≡ number self.now };
}

// "Answers by number".
impl Numbered for Refusal {
    ghost number = { number_of };

    fn number(&self) -> u64 {
        u64::from(*self)
    }
}

// "Refusals: 1, then 10 LIST ..; then each row's own."
impl Numbered for ListRefusal {
    ghost number = { list_number };

    fn number(&self) -> u64 {
        match self {
            ListRefusal::Size => 1,
            ListRefusal::List => 10,
            ListRefusal::Stopped { refusal, .. } => refusal.number(),
        }
    }
}

// "Refusals: 1, then 11 ROOM".
impl Numbered for RepairRefusal {
    ghost number = { repair_number };

    fn number(&self) -> u64 {
        match self {
            RepairRefusal::Size => 1,
            RepairRefusal::Room { .. } => 11,
        }
    }
}

// "Refusals: 1 and 4 as in 01, then 9 TALLY".
impl Numbered for ReportRefusal {
    ghost number = { report_number };

    fn number(&self) -> u64 {
        match self {
            ReportRefusal::Size => 1,
            ReportRefusal::Damaged => 4,
            ReportRefusal::Tally => 9,
        }
    }
}

// "Refusals: 1, then record by record in file order 13 SHORT .., 12 MARK .., 3 ..; then each insert's own."
impl Numbered for ImportRefusal {
    ghost number = { import_number };

    fn number(&self) -> u64 {
        match self {
            ImportRefusal::Size => 1,
            ImportRefusal::Short => 13,
            ImportRefusal::Mark => 12,
            ImportRefusal::Long => 3,
            ImportRefusal::Stopped { refusal, .. } => refusal.number(),
        }
    }
}

// "Export: 1, then 4 for a page that is not sound, then 11".
impl Numbered for ExportRefusal {
    ghost number = { export_number };

    fn number(&self) -> u64 {
        match self {
            ExportRefusal::Size => 1,
            ExportRefusal::Damaged => 4,
            ExportRefusal::Room(_) => 11,
        }
    }
}

// "Refusals: 1, then 14 RULE .., then 4", and of the list of whole readings then 11 ROOM.
impl Numbered for RuleRefusal {
    ghost number = { rule_number };

    fn number(&self) -> u64 {
        match self {
            RuleRefusal::Size => 1,
            RuleRefusal::Rule => 14,
            RuleRefusal::Damaged => 4,
            RuleRefusal::Room => 11,
        }
    }
}

// 0, or the number of the refusal.
pub fn answer_no<T, E: Numbered>(answer: &Result<T, E>) -> u64
    ensures { result ≡ told_no E.number answer.now }
{
    match answer {
        Ok(_) => 0,
        Err(refusal) => refusal.number(),
    }
}

// A refusal with a count beside it: the rows or records that went in, the entries that a repair needs.
pub trait Counted {
    ghost count: { Self → ℕ };

    fn count(&self) -> u64
        ensures { result ≡ count self.now };
}

impl Counted for ListRefusal {
    ghost count = { list_rows };

    fn count(&self) -> u64 {
        match self {
            ListRefusal::Stopped { rows, .. } => *rows as u64,
            _ => 0,
        }
    }
}

impl Counted for RepairRefusal {
    ghost count = { repair_entries };

    fn count(&self) -> u64 {
        match self {
            RepairRefusal::Room { count } => *count as u64,
            _ => 0,
        }
    }
}

impl Counted for ImportRefusal {
    ghost count = { import_records };

    fn count(&self) -> u64 {
        match self {
            ImportRefusal::Stopped { records, .. } => *records as u64,
            _ => 0,
        }
    }
}

// What is counted, or what the refusal tells of it.
pub fn count<E: Counted>(answer: &Result<usize, E>) -> u64
    ensures { result ≡ told_count E.count answer.now }
{
    match answer {
        Ok(n) => *n as u64,
        Err(refusal) => refusal.count(),
    }
}

// "an empty part for a read" that is refused.
pub fn part(answer: &Result<Part, Refusal>) -> Part
    ensures { result ≡ (located answer.now).part }
{
    match answer {
        Ok(part) => *part,
        Err(_) => Part::default(),
    }
}

// The file of an export: what it is, or with no room what it would be.
pub fn exported(answer: &Result<Exported, ExportRefusal>) -> Exported
    ensures { (result.length ≡ exported_length answer.now) × (result.passed ≡ exported_passed answer.now) }
{
    match answer {
        Ok(file) | Err(ExportRefusal::Room(file)) => *file,
        Err(_) => Exported::default(),
    }
}

// 1 for a yes alone: a caller who forgets a refusal does not polish.
pub fn cleared(answer: &Result<bool, RuleRefusal>) -> u64
    ensures { result ≡ clearing_yes answer.now }
{
    match answer {
        Ok(true) => 1,
        Ok(false) | Err(_) => 0,
    }
}
