//! A line that is cut off.

use batch_json::{LineFault, LineReason, Member, read_line};
use std::test::Fail;

/// The batch of a web server's address, as the AWS command line has it.
const WEB: &str =
    r#"{"ChangeResourceRecordSets":{"HostedZoneId":"/hostedzone/Z1","ChangeBatch":{"Comment":"web","Changes":[{"Action":"CREATE","ResourceRecordSet":{"Name":"www.example.com.","Type":"A","TTL":300,"ResourceRecords":[{"Value":"192.0.2.1"}]}}]}}}"#;

#[test]
fn after_each_byte(rt: HostRuntime) -> Result<(), Fail> {
    let line = WEB.as_bytes();
    let not_json = LineFault::bad(LineReason::NotJson, Member::Line);
    for len in 1..line.len() {
        let fault = read_line(rt.alloc(), &line[..len]).err();
        assert_eq!(rt; fault, Some(not_json), "the first {len} bytes");
    }
    assert!(rt; read_line(rt.alloc(), line).is_ok(), "the whole line");
    Ok(())
}
