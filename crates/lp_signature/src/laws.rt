//! What holds of the prelude, of names and of signatures. Each function does nothing: its contract is the law.

ghost use Rattle.lp_signature.specs.Laws.{PreludeIsWellFormed, PreludeIsFile, EscapedNamesDiffer, SymbolNamesDiffer};
ghost use Rattle.lp_signature.specs.Laws.{SymbolNamesAreNew, SymbolNamesAreTheirOwn, PremiseNamesDiffer, PremiseNamesAreNew};
ghost use Rattle.lp_signature.specs.Laws.{SignaturesAreFiles, GoalNameIsNew};

/// Each entry of the prelude is well formed after those before it.
#[tactic(auto, using(crate::proofs::PreludeIsWellFormed::prelude_is_well_formed))]
pub fn prelude_is_well_formed()
    ensures { PreludeIsWellFormed }
{}

/// The prelude's entries are those of a file.
#[tactic(auto, using(crate::proofs::PreludeIsFile::prelude_is_file))]
pub fn prelude_is_file()
    ensures { PreludeIsFile }
{}

/// No two names are escaped alike.
#[tactic(auto, using(crate::proofs::Constants::escaped_names_differ))]
pub fn escaped_names_differ()
    ensures { EscapedNamesDiffer }
{}

/// No two symbols of a typed problem have one constant.
#[tactic(auto, using(crate::proofs::Constants::symbol_names_differ))]
pub fn symbol_names_differ()
    ensures { SymbolNamesDiffer }
{}

/// A symbol's constant is an identifier, no `x` with digits, and none of the prelude's.
#[tactic(auto, using(crate::proofs::Constants::symbol_names_are_new))]
pub fn symbol_names_are_new()
    ensures { SymbolNamesAreNew }
{}

/// A symbol's constant is neither a premise's, nor the goal's, nor that of a shared definition.
#[tactic(auto, using(crate::proofs::Constants::symbol_names_are_their_own))]
pub fn symbol_names_are_their_own()
    ensures { SymbolNamesAreTheirOwn }
{}

/// No two premises have one constant.
#[tactic(auto, using(crate::proofs::Constants::premise_names_differ))]
pub fn premise_names_differ()
    ensures { PremiseNamesDiffer }
{}

/// A premise's constant is an identifier, no `x` with digits, and none of the prelude's.
#[tactic(auto, using(crate::proofs::Constants::premise_names_are_new))]
pub fn premise_names_are_new()
    ensures { PremiseNamesAreNew }
{}

/// The signature of a typed problem and its selection is a file's.
pub fn signatures_are_files()
    ensures { SignaturesAreFiles }
{}

/// The goal's name is new after the signature.
pub fn goal_name_is_new()
    ensures { GoalNameIsNew }
{}
