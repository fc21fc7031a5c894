//! What the definitions promise of one another. Each function does nothing: its contract is the law.

ghost use Rattle.lp_terms.specs.Laws.{ClosingUndoesOpening, OpeningClosedSubstitutes, WellFormedHasNoFree};
ghost use Rattle.lp_terms.specs.Laws.{ContextsWeaken, SignaturesWeaken, TypedTermsAreClosed, TypedTermsHoldTheirContext};
ghost use Rattle.lp_terms.specs.Laws.{SubstitutionKeepsTyping, TypesHaveSorts};
ghost use Rattle.lp_terms.specs.Laws.{PlainReductionIsReduction, PlainConversionIsConversion, PlainTypingIsTyping};
ghost use Rattle.lp_terms.specs.Laws.{ImplicationsAreWellFormed, IdentityIsTyped};

/// Closing on a variable that doesn't occur undoes opening at it.
#[tactic(auto, using(crate::proofs::Promises::closing_undoes_opening))]
pub fn closing_undoes_opening()
    ensures { ClosingUndoesOpening }
{}

/// Opening what was closed on a variable puts a term for the variable.
#[tactic(auto, using(crate::proofs::Promises::opening_closed_substitutes))]
pub fn opening_closed_substitutes()
    ensures { OpeningClosedSubstitutes }
{}

/// No free variable occurs in a well-formed signature.
#[tactic(auto, using(crate::proofs::Promises::well_formed_has_no_free))]
pub fn well_formed_has_no_free()
    ensures { WellFormedHasNoFree }
{}

/// What is typed in a context is typed in each that has all of it.
#[tactic(auto, using(crate::proofs::Promises::contexts_weaken))]
pub fn contexts_weaken()
    ensures { ContextsWeaken }
{}

/// What is typed over a signature is typed over each that has all of it.
#[tactic(auto, using(crate::proofs::Promises::signatures_weaken))]
pub fn signatures_weaken()
    ensures { SignaturesWeaken }
{}

/// A typed term has no loose index.
#[tactic(auto, using(crate::proofs::Promises::typed_terms_are_closed))]
pub fn typed_terms_are_closed()
    ensures { TypedTermsAreClosed }
{}

/// Each free variable of a typed term is one of its context.
#[tactic(auto, using(crate::proofs::Promises::typed_terms_hold_their_context))]
pub fn typed_terms_hold_their_context()
    ensures { TypedTermsHoldTheirContext }
{}

/// A term of the variable's type, put for the last variable of the context, keeps types.
#[tactic(auto, using(crate::proofs::Promises::substitution_keeps_typing))]
pub fn substitution_keeps_typing()
    ensures { SubstitutionKeepsTyping }
{}

/// What a term has is Kind or has a sort.
#[tactic(auto, using(crate::proofs::Promises::types_have_sorts))]
pub fn types_have_sorts()
    ensures { TypesHaveSorts }
{}

/// Reduction under a binder with one new variable is reduction.
#[tactic(auto, using(crate::proofs::Promises::plain_reduction_is_reduction))]
pub fn plain_reduction_is_reduction()
    ensures { PlainReductionIsReduction }
{}

/// Conversion under a binder with one new variable is conversion.
#[tactic(auto, using(crate::proofs::Promises::plain_conversion_is_conversion))]
pub fn plain_conversion_is_conversion()
    ensures { PlainConversionIsConversion }
{}

/// Typing under a binder with one new variable is typing.
#[tactic(auto, using(crate::proofs::Promises::plain_typing_is_typing))]
pub fn plain_typing_is_typing()
    ensures { PlainTypingIsTyping }
{}

/// The worked signature is well formed.
#[tactic(auto, using(crate::proofs::Worked::implications_are_well_formed))]
pub fn implications_are_well_formed()
    ensures { ImplicationsAreWellFormed }
{}

/// In the worked signature the identity proves that p implies p.
#[tactic(auto, using(crate::proofs::Worked::identity_is_typed))]
pub fn identity_is_typed()
    ensures { IdentityIsTyped }
{}
