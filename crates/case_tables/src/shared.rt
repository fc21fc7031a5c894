use crate::case::{Case, Field};
use std::alloc::{AllocError, Global};

// Whether the fields of this case are for those that follow it.
fn is_shared(case: &Case) -> bool {
    match case.fields.as_slice() {
        [first, ..] => first.word.as_str() == "shared",
        [] => false,
    }
}

// The same field.
fn copy_of(alloc: Global, field: &Field) -> Result<Field, AllocError> {
    let word = String::from_str(alloc, field.word.as_str())?;
    let value = Vec::from_slice(alloc, field.value.as_slice())?;
    Ok(Field { word, value })
}

// Puts the fields behind the word `shared` behind those that are there.
fn add_shared(alloc: Global, fields: &mut Vec<Field>, shared: &[Field]) -> Result<(), AllocError> {
    for field in shared.iter().skip(1) {
        fields.push(copy_of(alloc, field)?)?;
    }
    Ok(())
}

// Puts a case behind those that are there, with what it shares.
fn add_case(
    alloc: Global,
    all: &mut Vec<Case>,
    mut case: Case,
    shared: &[Field],
) -> Result<(), AllocError> {
    add_shared(alloc, &mut case.fields, shared)?;
    all.push(case)?;
    Ok(())
}

/// The cases, each with the fields that it shares behind its own: those of the last case before it that begins with
/// `shared`, which is no case itself.
pub(crate) fn with_shared(alloc: Global, cases: Vec<Case>) -> Result<Vec<Case>, AllocError> {
    let mut all = Vec::new(alloc);
    let mut shared = Vec::new(alloc);
    for case in cases {
        if is_shared(&case) {
            shared = case.fields;
        } else {
            add_case(alloc, &mut all, case, shared.as_slice())?;
        }
    }
    Ok(all)
}
