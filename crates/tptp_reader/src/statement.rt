use crate::text::Text;
use crate::tree::{RawForm, RawRole, RawTop, Texts};

/// A statement and the place of its first token.
#[derive(Debug, Drop)]
pub struct Statement {
    pub at: usize,
    pub body: Body,
}

/// What a statement says. Names stand without their outer quotes.
#[derive(Debug, Drop)]
pub enum Body {
    /// A premise or the conjecture.
    Formula {
        name: Text,
        role: RawRole,
        form: RawForm,
    },
    /// The declaration of a symbol.
    Typing {
        name: Text,
        subject: Text,
        declared: RawTop,
    },
    /// The statements of another file, or those of them that have one of the names.
    Include {
        file: Text,
        names: Option<Texts>,
    },
}

/// What stands next in a text: a statement, with the place behind it, or nothing but white space and comments.
#[derive(Debug, Drop)]
pub enum Read {
    Statement(Statement, usize),
    End,
}
