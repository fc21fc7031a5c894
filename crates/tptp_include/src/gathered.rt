// The list that is gathered.
ghost use Rattle.std.specs.Prelude.{◌≡◌, IfOk, map};
ghost use Rattle.std.specs.List.{AllByRecursion};

use crate::file_name::FileName;
use crate::refusal::Place;
use std::alloc::{AllocError, Global};
use std::marker::Model;
use tptp_reader::{Statement, Text};

/// A statement and the name of its file.
#[derive(Debug, Drop)]
pub struct GatheredStatement {
    pub file: FileName,
    pub statement: Statement,
}

/// The statements of a text, includes replaced by the statements of their files, in order. Contracts see it as the list.
#[derive(Debug, Drop)]
pub struct Gathered {
    list: Vec<GatheredStatement>,
}

impl Model for Gathered {
    ghost use Rattle.std.specs.Prelude.{List, map};
    ghost use Rattle.std.specs.List.{AllByRecursion};
    ghost use Rattle.tptp_include.specs.declared.gathered.GatheredStatement.{GatheredStatement};
    ghost use Rattle.std.specs.Coded.{coded_list};
    ghost use Rattle.tptp_include.specs.contracts.gathered.GatheredStatement.{the_row};

    ghost Value = { List GatheredStatement };

    ghost coded = { coded_list the_row.coded };

    ghost use Rattle.tptp_include.specs.Gathering.{IsGathered};
    ghost use Rattle.tptp_include.specs.Outcomes.{placed_of};

    ghost view = { λ g. g.list.items };

    ghost invariant = { λ g. AllByRecursion IsGathered (map placed_of g.list.items) };
}

impl GatheredStatement {
    /// The place of the statement's first token.
    pub fn place(&self, alloc: Global) -> Result<Place, AllocError>
        ensures { IfOk result (λ p. (p.file ≡ self.now.file) × (p.at ≡ self.now.statement.at)) }
    {
        let file = Text::of(alloc, self.file.text())?;
        Ok(Place {
            file,
            at: self.statement.at,
        })
    }
}

impl Gathered {
    ghost use Rattle.tptp_include.specs.Gathering.{IsGathered};
    ghost use Rattle.tptp_include.specs.Outcomes.{placed_of};

    // The list of these statements.
    pub(crate) fn of(list: Vec<GatheredStatement>) -> Gathered
        requires { AllByRecursion IsGathered (map placed_of list.items) }
        ensures { result ≡ list.items }
    {
        Gathered { list }
    }

    /// Lends the statements, each with the name of its file. Each is within the reader's limits, and none is an include.
    pub fn statements(&self) -> &[GatheredStatement]
        ensures value { result.now ≡ self.now }
        ensures gathered { AllByRecursion IsGathered (map placed_of self.now) }
    {
        &self.list
    }
}
