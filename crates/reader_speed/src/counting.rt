use std::alloc::Global;
use tptp_reader::{Read, ReadRefusal, read_statement};

/// How many statements were read, the place behind the last of them, and why the next was refused, if it was.
#[derive(Clone, Copy, Debug)]
pub struct Count {
    pub statements: usize,
    pub reached: usize,
    pub refused: Option<ReadRefusal>,
}

/// Reads the statements of a text, one after another, up to its end or the first refusal.
pub fn counted(alloc: Global, bytes: &[u8]) -> Count {
    let mut statements = 0;
    let mut reached = 0;
    loop {
        match read_statement(alloc, bytes, reached) {
            Ok(Read::Statement(statement, after)) => {
                drop(statement);
                statements += 1;
                reached = after;
            }
            Ok(Read::End) => {
                return Count {
                    statements,
                    reached,
                    refused: None,
                };
            }
            Err(refusal) => {
                return Count {
                    statements,
                    reached,
                    refused: Some(refusal),
                };
            }
        }
    }
}
