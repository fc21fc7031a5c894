ghost use Rattle.std.specs.Prelude.{◌≡◌, ◌≤◌, List, IfOk, IfErr};
ghost use Rattle.indexmap.specs.IndexMap.{IsEmpty, get};
ghost use Rattle.zm_logic.specs.Tree as tree;
ghost use Rattle.zm_logic.specs.Measure.{depth};
ghost use Rattle.zm_logic.specs.Typing.{WellTyped};
ghost use Rattle.term_store.specs.Trees.{Tables, HasForm, form_of, Extends};
ghost use Rattle.rule_index.specs.Usable.{AreUsable};
ghost use Rattle.rule_index.specs.View.{rules_of};
ghost use Rattle.normaliser.specs.NormalForm.{normal_form};
ghost use Rattle.normaliser.specs.Meaning.{KeepsTyping, Meets};
ghost use Rattle.normaliser.specs.Answered.{IfAnswered, IfDeepAt, IfSpentFrom};
ghost use Rattle.normaliser.specs.Kept.{same_id, IsReached, normaliser_rules, Knows};

use crate::normalising::{NormalStop, normal, stored};
use indexmap::IndexMap;
use rule_index::Index;
use std::alloc::{AllocError, Global};
use term_store::{FormId, Store};

/// Normal forms by the rules of an index, for the formulas of one store. Each formula that reached its normal form is kept
/// with it and the number of steps, so that it is normalised once.
#[derive(Drop)]
pub struct Normaliser {
    index: Index,
    kept: IndexMap<FormId, (FormId, u32)>,
}

impl Normaliser {
    /// Normal forms by the rules of an index. Nothing is kept yet. It takes no memory.
    #[tactic(auto, using(crate::proofs::Memo::nothing_kept))]
    pub fn new(alloc: Global, index: Index) -> Normaliser
        ensures rules { normaliser_rules result ≡ rules_of index }
        ensures knows { (s : Tables) → Knows s result }
    {
        Normaliser {
            index,
            kept: IndexMap::new(alloc),
        }
    }

    // The normal form of a formula with the number of steps, if it is kept.
    fn recall(&self, form: FormId) -> Option<(FormId, u32)>
        ensures { result ≡ get same_id self.now.kept form }
    {
        self.kept.get(&form).copied()
    }

    // Keeps the normal form of a formula.
    fn keep(&mut self, form: FormId, found: (FormId, u32)) -> Result<(), AllocError>
        ensures rules { normaliser_rules self.new ≡ normaliser_rules self.old }
        ensures knows { (s : Tables) → IsReached (normaliser_rules self.old) s form found.0 found.1 → Knows s self.old → Knows s self.new }
    {
        self.kept.insert(form, found)?;
        Ok(())
    }

    // The normal form of a formula that isn't kept.
    #[tactic(auto, using(crate::proofs::Memo::knows_stays, crate::proofs::Memo::is_reached))]
    fn walk(
        &mut self,
        alloc: Global,
        store: &mut Store,
        form: FormId,
        limit: u32,
    ) -> Result<(FormId, u32), NormalStop>
        requires has { HasForm store.old form }
        requires knows { Knows store.old self.old }
        ensures has { IfOk result (λ r. HasForm store.new r.0) }
        ensures has_at { IfErr result (IfDeepAt (HasForm store.new)) }
        ensures from { IfErr result (IfSpentFrom (λ from. from ≡ form)) }
        ensures answer { IfAnswered store.new (λ a. a ≡ normal_form (normaliser_rules self.old) limit (form_of store.old form)) result }
        ensures kept { Extends store.old store.new }
        ensures rules { normaliser_rules self.new ≡ normaliser_rules self.old }
        ensures knows { Knows store.new self.new }
    {
        let found = normal(alloc, store, &self.index, form, limit)?;
        self.keep(form, found)?;
        Ok(found)
    }

    /// The leftmost innermost normal form of a formula, with the number of steps that lead to it. `Spent` comes exactly
    /// where more than `limit` steps can be made from the formula, none of the first `limit` leading to one that is
    /// deeper than 2,000. `Deep` comes exactly where a step within the limit leads to such a formula, and names the last
    /// formula before it. A formula that reached its normal form before takes no step and no memory. After an error more
    /// nodes may stand in the store.
    #[tactic(auto, using(crate::proofs::Memo::kept_answers, crate::proofs::Memo::kept_spent, crate::proofs::Memo::answer_meets))]
    pub fn normal(
        &mut self,
        alloc: Global,
        store: &mut Store,
        form: FormId,
        limit: u32,
    ) -> Result<(FormId, u32), NormalStop>
        requires has { HasForm store.old form }
        requires knows { Knows store.old self.old }
        ensures has { IfOk result (λ r. HasForm store.new r.0) }
        ensures has_at { IfErr result (IfDeepAt (HasForm store.new)) }
        ensures from { IfErr result (IfSpentFrom (λ from. from ≡ form)) }
        ensures answer { IfAnswered store.new (λ a. a ≡ normal_form (normaliser_rules self.old) limit (form_of store.old form)) result }
        ensures meets { (symbols : List tree.Symbol) → AreUsable (normaliser_rules self.old) → KeepsTyping symbols (normaliser_rules self.old) → WellTyped symbols (form_of store.old form) → IfAnswered store.new (Meets (normaliser_rules self.old) limit (form_of store.old form)) result }
        ensures kept { Extends store.old store.new }
        ensures rules { normaliser_rules self.new ≡ normaliser_rules self.old }
        ensures knows { Knows store.new self.new }
    {
        stored(store, form);
        match self.recall(form) {
            Some((reached, steps)) if steps <= limit => Ok((reached, steps)),
            Some(_) => Err(NormalStop::Spent { from: form }),
            None => self.walk(alloc, store, form, limit),
        }
    }
}
