use param_store::Params;
use std::alloc::AllocError;
use std::test::Fail;
use term_store::FormId;

// Whether two formulas have the first numbers, and no other one a number.
fn first_two(params: &Params) -> bool {
    params.count() == 2
        && params.form_of(0) == Some(FormId(5))
        && params.form_of(1) == Some(FormId(3))
        && params.form_of(2).is_none()
}

// Whether the numbers come in order, and stay.
fn come_in_order(params: &mut Params) -> Result<bool, AllocError> {
    let five = params.number_for(FormId(5))?;
    let three = params.number_for(FormId(3))?;
    let again = params.number_for(FormId(5))?;
    Ok(five == 0 && three == 1 && again == 0 && first_two(params))
}

// Whether the next number follows those that are kept.
fn follow_kept(params: &mut Params) -> Result<bool, AllocError> {
    params.keep_first(1);
    let kept = params.count() == 1
        && params.form_of(0) == Some(FormId(5))
        && params.form_of(1).is_none();
    let next = params.number_for(FormId(7))?;
    Ok(kept && next == 1)
}

#[test]
fn numbers_have_no_gaps(rt: HostRuntime) -> Result<(), Fail> {
    let mut params = Params::new(rt.alloc());
    assert!(rt; come_in_order(&mut params)?);
    assert!(rt; follow_kept(&mut params)?, "next to those kept");
    Ok(())
}
