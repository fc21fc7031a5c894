// What the first statement of a text says.
use case_tables::{Case, CaseFault, Table};
use std::alloc::{AllocError, Global};
use tptp_reader::{Read, Statement, read_statement};

/// The tree of the statement at the front of a text.
pub struct Trees;

// What is written of a tree, and what stands for it: the names of the structs and the lists are left out.
const SHORT: [(&str, &str); 7] = [
    ("Text { string: ", ""),
    ("\" }", "\""),
    ("Items { items: [", "["),
    ("] }", "]"),
    ("Boxed { inner: ", "{ "),
    ("RawVar ", ""),
    ("RawTop ", ""),
];

// A tree with the names of the structs and the lists left out.
fn shortened(alloc: Global, tree: String, short: &[(&str, &str)]) -> Result<String, AllocError> {
    let mut shown = tree;
    for (long, other) in short {
        shown = shown.replace(alloc, *long, *other)?;
    }
    Ok(shown)
}

// The tree of a statement.
fn tree(alloc: Global, statement: &Statement) -> Result<String, AllocError> {
    let body = &statement.body;
    let tree = format!(in alloc; "{body:?}")?;
    shortened(alloc, tree, &SHORT)
}

// The tree of what was read.
fn read_tree(alloc: Global, read: &Read) -> Result<String, AllocError> {
    match read {
        Read::Statement(statement, _) => tree(alloc, statement),
        Read::End => String::from_str(alloc, "end"),
    }
}

// What is told of the front of a text.
fn told(alloc: Global, text: &[u8]) -> Result<String, AllocError> {
    match read_statement(alloc, text, 0) {
        Ok(read) => read_tree(alloc, &read),
        Err(_) => String::from_str(alloc, "refused"),
    }
}

impl Table for Trees {
    fn name(&self) -> &'static str {
        "trees"
    }

    fn words(&self) -> &'static [&'static str] {
        &[]
    }

    fn answer(&self, alloc: Global, case: &Case) -> Result<Vec<u8>, CaseFault> {
        let text = case.wanted(alloc, "text")?;
        let out = told(alloc, text.as_slice())?;
        Ok(out.into_bytes())
    }
}
