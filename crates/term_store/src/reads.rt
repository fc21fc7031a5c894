ghost use Rattle.std.specs.Prelude.{◌≡◌, ◌≤◌};
ghost use Rattle.zm_logic.specs.Measure.{type_depth, term_depth, depth};
ghost use Rattle.term_store.specs.Trees.{HasType, HasTypeParts, type_of, type_node, HasTerm, HasTermParts, term_of, term_node, HasForm, HasFormParts, form_of, form_node, AreShared};

use crate::ids::{FormId, TermId, TyId};
use crate::node::{FormNode, TermNode, TyNode};
use crate::store::Store;

impl Store {
    /// The law of sharing: ids of equal trees are equal. It does nothing, and takes no memory.
    pub fn shared(&self)
        ensures { AreShared self.now }
    {
        let _ = &self.types;
    }

    /// The node of a type's id. It takes no memory.
    pub fn ty_node(&self, id: TyId) -> &TyNode
        requires { HasType self.now id }
        ensures tree { type_node self.now result.now ≡ type_of self.now id }
        ensures parts { HasTypeParts self.now result.now }
        ensures bounded { type_depth (type_of self.now id) ≤ 2000 }
    {
        self.types.get_index(id.0).unwrap().0
    }

    /// The node of a term's id. It takes no memory.
    pub fn term_node(&self, id: TermId) -> &TermNode
        requires { HasTerm self.now id }
        ensures tree { term_node self.now result.now ≡ term_of self.now id }
        ensures parts { HasTermParts self.now result.now }
        ensures bounded { term_depth (term_of self.now id) ≤ 2000 }
    {
        self.terms.get_index(id.0).unwrap().0
    }

    /// The node of a formula's id. It takes no memory.
    pub fn form_node(&self, id: FormId) -> &FormNode
        requires { HasForm self.now id }
        ensures tree { form_node self.now result.now ≡ form_of self.now id }
        ensures parts { HasFormParts self.now result.now }
        ensures bounded { depth (form_of self.now id) ≤ 2000 }
    {
        self.forms.get_index(id.0).unwrap().0
    }
}
