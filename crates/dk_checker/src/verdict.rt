use lp_terms::Lp;
use sqlite_items::Items;

/// What a term can have: a type, or Kind.
#[derive(Drop)]
pub enum Class {
    /// Kind, which is what the sort Type has.
    Kind,
    /// A type.
    Of(Lp),
}

/// Numbers of parts, from the outermost one on. The parts of a rule are the types of its context, its left side and its right
/// side; those of any other entry are its type and its body. The parts of an application are its function and its argument,
/// and those of an abstraction or a product its domain and its body.
pub type DkPath = Items<usize>;

/// A place in a file.
#[derive(Drop)]
pub struct DkPlace {
    /// The number of the entry; the first one is 0.
    pub entry: usize,
    /// The parts that lead to the place.
    pub path: DkPath,
}

/// Why a file is refused. In each type the binders round the place are counted from 0, context variables first and the
/// binders of a normal form last, and a variable is free and has the number of its binder.
#[derive(Drop)]
pub enum CheckRefusal {
    /// The part has another type than the place asks, and the normal forms of the two differ.
    Mismatch {
        place: DkPlace,
        found: Class,
        wanted: Class,
        found_normal: Class,
        wanted_normal: Class,
    },
    /// The part is applied, and the normal form of its type is no product.
    NotProduct {
        place: DkPlace,
        found: Class,
        normal: Class,
    },
    /// The part stands as a type, and the normal form of its type is no sort.
    NotSort {
        place: DkPlace,
        found: Class,
        normal: Class,
    },
    /// The part is the body of an abstraction, and its type is Kind.
    BodyKind {
        place: DkPlace,
    },
    /// The head of the rule's left side wasn't declared by `def`.
    RuleHead {
        place: DkPlace,
    },
}

/// What a check finds.
#[derive(Drop)]
pub enum Verdict {
    /// The file is well formed.
    Accepted,
    /// The first place that fails is refused.
    Refused(CheckRefusal),
    /// At the first place that fails a normal form is wanted, and more steps than the limit can be made from this type; or
    /// this is the 65th type of a chain that begins there.
    Spent { from: Lp },
}
