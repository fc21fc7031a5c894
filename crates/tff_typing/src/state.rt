use crate::symbols::Symbols;
use zm_logic::{Form, Premises};

/// What the statements so far make: the symbols, the premises in order, and the conjecture, where there is one.
#[derive(Drop)]
pub struct State<'a> {
    pub symbols: Symbols<'a>,
    pub premises: Premises,
    pub conjecture: Option<Form>,
}
