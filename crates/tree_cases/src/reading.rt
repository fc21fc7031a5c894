use crate::piles::Piles;
use crate::ranges::expanded;
use crate::tokens::{Token, tokens};
use case_tables::CaseFault;
use sqlite_items::Boxed;
use std::alloc::Global;
use zm_logic::{Form, Term, Ty};

// The trees of the parts of a text, which come from its end.
fn piled(alloc: Global, tokens: &[Token]) -> Result<Piles, CaseFault> {
    let mut piles = Piles::new(alloc);
    for token in tokens.iter().rev() {
        piles.take(*token)?;
    }
    Ok(piles)
}

/// The trees of a text.
pub(crate) fn read(alloc: Global, text: &[u8]) -> Result<Piles, CaseFault> {
    let text = expanded(alloc, text)?;
    let tokens = tokens(alloc, text.as_bytes())?;
    piled(alloc, tokens.as_slice())
}

/// The type that a text is.
pub(crate) fn read_type(alloc: Global, text: &[u8]) -> Result<Ty, CaseFault> {
    read(alloc, text)?.into_type()
}

/// The term that a text is.
pub(crate) fn read_term(alloc: Global, text: &[u8]) -> Result<Term, CaseFault> {
    read(alloc, text)?.into_term()
}

/// The formula that a text is.
pub(crate) fn read_form(alloc: Global, text: &[u8]) -> Result<Boxed<Form>, CaseFault> {
    read(alloc, text)?.into_form()
}
