// Proofs that another program wrote, and the prelude beside their front.
use crate::texts::{printed, told};
use case_tables::{Case, CaseFault, Table};
use lp_signature::laws::prelude_is_file;
use lp_signature::prelude;
use lp_terms::DkFile;
use std::alloc::Global;

/// Texts that are read and printed as they stand, and the prelude, printed.
pub struct Proofs;

// The text of a case behind its front; the front alone where the case is the prelude.
fn text_of(alloc: Global, case: &Case) -> Result<Vec<u8>, CaseFault> {
    let mut text = case.wanted(alloc, "front")?;
    if case.first("prelude").is_none() {
        let behind = case.wanted(alloc, "text")?;
        text.extend_from_slice(behind.as_slice())?;
    }
    Ok(text)
}

// The prelude, printed.
fn printed_prelude(alloc: Global) -> Result<Vec<u8>, CaseFault> {
    let entries = prelude(alloc)?;
    prelude_is_file();
    let text = printed(alloc, &DkFile::make(entries))?;
    Ok(text)
}

impl Table for Proofs {
    fn name(&self) -> &'static str {
        "proofs"
    }

    fn words(&self) -> &'static [&'static str] {
        &["front", "prelude"]
    }

    fn wanted(&self, alloc: Global, case: &Case) -> Result<Vec<u8>, CaseFault> {
        text_of(alloc, case)
    }

    fn answer(&self, alloc: Global, case: &Case) -> Result<Vec<u8>, CaseFault> {
        if case.first("prelude").is_some() {
            return printed_prelude(alloc);
        }
        let text = text_of(alloc, case)?;
        let out = told(alloc, text.as_slice())?;
        Ok(out)
    }
}
