use crate::case::{Case, CaseFault, Field};
use crate::fields::{field, first_line};
use crate::shared::with_shared;
use std::alloc::{AllocError, Global};

/// Why a table can't be used: no memory, no such file, no case in it, or a line that isn't understood.
#[derive(Clone, Copy, Debug, PartialEq, Eq)]
pub(crate) enum TableFault {
    Memory,
    Missing,
    Empty,
    Line(usize),
}

impl TableFault {
    // The fault of the case or the line with this number.
    pub(crate) fn at(fault: CaseFault, line: usize) -> TableFault {
        match fault {
            CaseFault::Memory => TableFault::Memory,
            CaseFault::Broken => TableFault::Line(line),
        }
    }
}

// A case with nothing in it so far.
fn add_case(alloc: Global, cases: &mut Vec<Case>, line: usize) -> Result<(), TableFault> {
    let fields = Vec::new(alloc);
    match cases.push(Case { line, fields }) {
        Ok(()) => Ok(()),
        Err(_) => Err(TableFault::Memory),
    }
}

// A field of the last case.
fn add_field(cases: &mut Vec<Case>, field: Field) -> Result<(), TableFault> {
    match cases.last_mut() {
        Some(case) => match case.fields.push(field) {
            Ok(()) => Ok(()),
            Err(_) => Err(TableFault::Memory),
        },
        None => Ok(()),
    }
}

// Reads a line that is neither blank nor a remark; `open` says whether a case goes on.
fn read_line(
    alloc: Global,
    cases: &mut Vec<Case>,
    open: bool,
    line: &[u8],
    number: usize,
) -> Result<(), TableFault> {
    match field(alloc, line) {
        Ok(field) => {
            if !open {
                add_case(alloc, cases, number)?;
            }
            add_field(cases, field)
        }
        Err(fault) => Err(TableFault::at(fault, number)),
    }
}

// The cases of a table, and those that only hold what others share.
fn read_cases(alloc: Global, bytes: &[u8]) -> Result<Vec<Case>, TableFault> {
    let mut cases = Vec::new(alloc);
    let mut open = false;
    let mut rest = Some(bytes);
    for number in 1..=bytes.len() {
        let Some(text) = rest else { break };
        let (line, behind) = first_line(text);
        match line {
            [] => open = false,
            [b'#', ..] => {}
            [_, ..] => {
                read_line(alloc, &mut cases, open, line, number)?;
                open = true;
            }
        }
        rest = behind;
    }
    Ok(cases)
}

/// The cases of a table, of which there is one at least.
pub(crate) fn read_table(alloc: Global, bytes: &[u8]) -> Result<Vec<Case>, TableFault> {
    let cases = read_cases(alloc, bytes)?;
    match with_shared(alloc, cases) {
        Ok(cases) if cases.is_empty() => Err(TableFault::Empty),
        Ok(cases) => Ok(cases),
        Err(AllocError) => Err(TableFault::Memory),
    }
}
