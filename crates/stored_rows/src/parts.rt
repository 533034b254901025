//! A set by hand, part by part.

use rdata_layout::RType;
use set_parts::{behind_check, body_of, head_of, keys_are_in_front, policy_of};
use std::test::Fail;

/// `a. A`, of weight 5 behind the identifier `x`, an alias of `b.` whose health counts, and the
/// check 7.
const SET: [u8; 20] = [
    1, b'a', 0, 0, 1, 1, 1, b'x', 5, 1, 1, b'b', 0, 1, 1, 0, 0, 0, 7, 9,
];

#[test]
fn finds_the_parts(rt: HostRuntime) -> Result<(), Fail> {
    keys_are_in_front();
    let head = head_of(&SET);
    assert_eq!(rt; head.name, &SET[..3], "name");
    assert_eq!(rt; head.rtype, RType::A, "type");
    assert!(rt; head.ident == Some(&SET[7..8]), "identifier");
    assert_eq!(rt; policy_of(&SET), &SET[5..], "policy");
    assert_eq!(rt; body_of(&SET), &SET[9..], "body");
    assert_eq!(rt; behind_check(&SET[14..]), &SET[19..], "check");
    Ok(())
}
