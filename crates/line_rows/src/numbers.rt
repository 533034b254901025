//! Numbers of a line that no reply tells.

use serde_json::Value;
use set_lines::change_sets;
use std::test::Fail;
use zone_lines::list_sets;

#[test]
fn sets_of_a_list(rt: HostRuntime) -> Result<(), Fail> {
    let value = Value::from_str(rt.alloc(), r#"{"HostedZoneId":"Z1"}"#)?;
    let list = list_sets(&value).ok().expect(&rt, "a list");
    assert_eq!(rt; list.items, 300, "where no limit is given");
    Ok(())
}

#[test]
fn characters_of_changes(rt: HostRuntime) -> Result<(), Fail> {
    let a = rt.alloc();
    let value = Value::from_str(
        a,
        r#"{"HostedZoneId":"Z1","ChangeBatch":{"Changes":[
            {"Action":"CREATE","ResourceRecordSet":{"Name":"a","Type":"A","TTL":60,
                "ResourceRecords":[{"Value":"192.0.2.1"},{"Value":"192.0.2.2"}]}},
            {"Action":"UPSERT","ResourceRecordSet":{"Name":"b","Type":"A",
                "AliasTarget":{"HostedZoneId":"Z1","DNSName":"a","EvaluateTargetHealth":true}}}]}}"#,
    )?;
    let batch = change_sets(a, &value).ok().expect(&rt, "a batch");
    let changes = batch.changes.as_slice();
    let first = changes.first().expect(&rt, "a first change");
    let second = changes.last().expect(&rt, "a second change");
    assert_eq!(rt; first.characters, 18, "of two addresses");
    assert_eq!(rt; second.characters, 0, "an alias has none");
    Ok(())
}
