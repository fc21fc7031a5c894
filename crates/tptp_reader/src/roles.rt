ghost use Rattle.std.specs.Prelude.{◌≡◌};
ghost use Rattle.tptp_reader.specs.Rows.{role_of};

use crate::tree::RawRole;

/// The role that a word names, if it names one.
pub fn role_of(word: &str) -> Option<RawRole>
    ensures { result ≡ role_of word.now }
{
    match word {
        "axiom" => Some(RawRole::Axiom),
        "hypothesis" => Some(RawRole::Hypothesis),
        "definition" => Some(RawRole::Definition),
        "assumption" => Some(RawRole::Assumption),
        "lemma" => Some(RawRole::Lemma),
        "theorem" => Some(RawRole::Theorem),
        "corollary" => Some(RawRole::Corollary),
        "negated_conjecture" => Some(RawRole::NegatedConjecture),
        "conjecture" => Some(RawRole::Conjecture),
        _ => None,
    }
}
