//! An alias of an address block.

use crate::sets::{ident, name, set};
use rdata::RType;
use record_set::{Body, Routing, check_set};

#[test]
fn alias_of_a_block(rt: HostRuntime) {
    let a = ident(&rt, b"a");
    let www = name(&rt, b"www.example.com");
    let body = Body::Alias {
        target: www,
        evaluate: true,
    };
    let set = set(www, RType::A, Routing::Cidr(a, 1, a), body);
    let reason = check_set(&set, &name(&rt, b"example.com"));
    assert_eq!(rt; reason, None, "no reason refuses it");
}
