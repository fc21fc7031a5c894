use choosers::{Kind, Offer};
use std::test::Fail;

// an alpha offer of the third formula of a branch
const ALPHA: Offer = Offer {
    kind: Kind::Alpha,
    children: 1,
    size: 5,
    later: 2,
    earlier: None,
};

#[test]
fn equal_offers_agree_in_each_field(rt: HostRuntime) -> Result<(), Fail> {
    let offer = ALPHA;
    assert_eq!(rt; offer, ALPHA);
    let mut other = offer;
    other.kind = Kind::Delta;
    assert!(rt; other != offer, "kind");
    other = offer;
    other.children = 2;
    assert!(rt; other != offer, "children");
    other = offer;
    other.size = 6;
    assert!(rt; other != offer, "size");
    other = offer;
    other.later = 3;
    assert!(rt; other != offer, "later");
    other = offer;
    other.earlier = Some(0);
    assert!(rt; other != offer, "earlier");
    Ok(())
}
