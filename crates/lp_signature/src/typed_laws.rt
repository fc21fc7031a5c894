//! What holds of the signature of a problem. The function does nothing but cite what holds of its rules: its contract is
//! the law.

ghost use Rattle.lp_signature.specs.WellFormedLaws.{SignaturesAreWellFormed};

/// Each entry of the signature of a typed problem and a selection of its rules is well formed after those before it.
pub fn signatures_are_well_formed()
    ensures { SignaturesAreWellFormed }
{
    rule_select::laws::selected_rules_are_sound();
}
