use crate::case::{Case, CaseFault, is_one_of};
use crate::reader::{TableFault, read_table};
use crate::score::Score;
use std::alloc::Global;

/// A table of cases with a text and what is wanted: where it lies, which words it has, and what is answered.
pub trait Table {
    /// The name of the table; its file is `NAME.cases`.
    fn name(&self) -> &'static str;

    /// The words that a case may have beside `name`, `text` and `wanted`.
    fn words(&self) -> &'static [&'static str];

    /// What is wanted of a case: the values of `wanted`, where the table says nothing else.
    fn wanted(&self, alloc: Global, case: &Case) -> Result<Vec<u8>, CaseFault> {
        case.wanted(alloc, "wanted")
    }

    /// What is answered to a case.
    fn answer(&self, alloc: Global, case: &Case) -> Result<Vec<u8>, CaseFault>;
}

// The bytes of a file.
fn bytes_of(rt: &HostRuntime, file: &str) -> Result<Vec<u8>, TableFault> {
    match std::fs::read(rt, file) {
        Ok(bytes) => Ok(bytes),
        Err(_) => Err(TableFault::Missing),
    }
}

// The cases in the file of the table with this name.
fn cases_of(rt: &HostRuntime, name: &str) -> Result<Vec<Case>, TableFault> {
    let Ok(file) = format!(in rt.alloc(); "{name}.cases") else {
        return Err(TableFault::Memory);
    };
    let bytes = bytes_of(rt, file.as_str())?;
    read_table(rt.alloc(), bytes.as_slice())
}

// Whether each word of the case is one that the table has.
fn is_known(case: &Case, words: &[&str]) -> bool {
    for field in case.fields.as_slice() {
        let word = field.word.as_str();
        if !is_one_of(word, &["name", "text", "wanted"]) && !is_one_of(word, words) {
            return false;
        }
    }
    true
}

// Tries one case.
fn try_case<T: Table>(
    rt: &HostRuntime,
    table: &T,
    case: &Case,
    score: &mut Score,
) -> Result<(), CaseFault> {
    if !is_known(case, table.words()) {
        return Err(CaseFault::Broken);
    }
    let wanted = table.wanted(rt.alloc(), case)?;
    let found = table.answer(rt.alloc(), case)?;
    score.note(rt, case.line, wanted.as_slice(), found.as_slice())
}

// Tries each case of a table.
fn score_of<T: Table>(rt: &HostRuntime, table: &T) -> Result<Score, TableFault> {
    let mut score = Score::new(table.name());
    let cases = cases_of(rt, table.name())?;
    for case in cases.as_slice() {
        match try_case(rt, table, case, &mut score) {
            Ok(()) => {}
            Err(fault) => return Err(TableFault::at(fault, case.line)),
        }
    }
    Ok(score)
}

// Prints why a table can't be used.
fn tell(rt: &HostRuntime, name: &str, fault: TableFault) {
    let _ = match fault {
        TableFault::Memory => println!(rt; "{name}: no memory"),
        TableFault::Missing => println!(rt; "{name}: no file"),
        TableFault::Empty => println!(rt; "{name}: no case"),
        TableFault::Line(line) => println!(rt; "{name}:{line}: not understood"),
    };
}

/// Tries each case of a table, prints each difference and then how many cases held, and says whether all did. A table
/// that can't be used is told by its line, and doesn't hold.
pub fn table_holds<T: Table>(rt: &HostRuntime, table: &T) -> bool {
    match score_of(rt, table) {
        Ok(score) => score.finish(rt),
        Err(fault) => {
            tell(rt, table.name(), fault);
            false
        }
    }
}
