use crate::tests::problems::typed;
use rule_select::{RuleOf, Selection, keep_all};
use std::alloc::{AllocError, Global};
use std::test::Fail;
use zm_logic::Rules;

#[test]
fn all_premises_are_kept(rt: HostRuntime) -> Result<(), Fail> {
    let alloc = rt.alloc();
    let problem = typed(alloc, "fof(a,axiom,$true).fof(b,definition,$true).")?;
    let selection = keep_all(alloc, &problem)?;
    assert_eq!(rt; (selection.rules.len(), selection.rule_of.len()), (0, 2));
    let kept = selection.kept(alloc)?;
    assert_eq!(rt; kept.as_slice(), [0, 1].as_slice());
    Ok(())
}

// five premises, of which the second and the fourth are rules
fn mixed(alloc: Global) -> Result<RuleOf, AllocError> {
    RuleOf::from_slice(alloc, &[None, Some(0), None, Some(1), None])
}

#[test]
fn rules_are_not_kept(rt: HostRuntime) -> Result<(), Fail> {
    let alloc = rt.alloc();
    let rule_of = mixed(alloc)?;
    let selection = Selection {
        rules: Rules::new(alloc),
        rule_of,
    };
    let kept = selection.kept(alloc)?;
    assert_eq!(rt; kept.as_slice(), [0, 2, 4].as_slice());
    Ok(())
}
