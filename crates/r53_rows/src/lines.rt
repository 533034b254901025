//! Sessions over a store: control lines, the replies to them, and what the store dumps as behind each.

/// Control lines, and what has to come of them.
#[derive(Clone, Copy)]
pub(crate) struct Session {
    /// What file a holds before the first line; file b is empty.
    pub(crate) file: &'static [u8],
    pub(crate) lines: &'static [u8],
    pub(crate) replies: &'static [u8],
    /// What the store dumps as before the first line, and behind each up to the last that changes it.
    dumps: &'static [&'static [u8]],
}

impl Session {
    /// What the store dumps as behind so many lines.
    pub(crate) fn dump_behind(&self, lines: usize) -> &'static [u8] {
        match self.dumps.get(lines) {
            Some(dump) => dump,
            None => self.dumps.last().unwrap_or(&NOTHING),
        }
    }

    /// The replies to the first so many lines.
    pub(crate) fn replies_to(&self, lines: usize) -> &'static [u8] {
        let mut left = lines;
        for (at, octet) in self.replies.iter().enumerate() {
            if left == 0 {
                return self.replies.get(..at).unwrap_or(self.replies);
            }
            if *octet == b'\n' {
                left -= 1;
            }
        }
        self.replies
    }
}

/// How many lines end in octets.
pub(crate) fn count_lines(octets: &[u8]) -> usize {
    octets.iter().filter(|octet| **octet == b'\n').count()
}

/// The file of a store with nothing in it.
pub(crate) const EMPTY: &[u8] =
    b"\x01R53ZJ01\0\0\0\0\0\0\0\x01\0\0\0\x0d\x02\0\0\0\x01\0\0\0\x01\0\0\0\0\0";

/// The same with the zone example.com.
const ZONED: &[u8] =
    b"\x01R53ZJ01\0\0\0\0\0\0\0\x01\0\0\0\x0d\x02\0\0\0\x01\0\0\0\x01\0\0\0\0\x01\0\0\0\x53\x02\x01\x07example\x03com\0\x03ns1\x03r53\x07invalid\0\x03ns2\x03r53\x07invalid\0\x03ns3\x03r53\x07invalid\0\x03ns4\x03r53\x07invalid\0\0";

const NOTHING: &[u8] = b"";

const FIRST_CHECK: &[u8] =
    br#"{"HealthCheck":{"Disabled":false,"FailureThreshold":3,"Id":"h1","Inverted":false,"Type":"ENDPOINT"}}
"#;

const SECOND_CHECK: &[u8] =
    br#"{"HealthCheck":{"Disabled":false,"FailureThreshold":3,"Id":"h2","Inverted":false,"Type":"ENDPOINT"}}
"#;

const BOTH_CHECKS: &[u8] =
    br#"{"HealthCheck":{"Disabled":false,"FailureThreshold":3,"Id":"h1","Inverted":false,"Type":"ENDPOINT"}}
{"HealthCheck":{"Disabled":false,"FailureThreshold":3,"Id":"h2","Inverted":false,"Type":"ENDPOINT"}}
"#;

const ZONE: &[u8] = br#"{"HostedZone":{"Id":"Z1","Name":"example.com."}}
{"ResourceRecordSet":{"Name":"example.com.","ResourceRecords":[{"Value":"ns1.r53.invalid."},{"Value":"ns2.r53.invalid."},{"Value":"ns3.r53.invalid."},{"Value":"ns4.r53.invalid."}],"TTL":172800,"Type":"NS"}}
{"ResourceRecordSet":{"Name":"example.com.","ResourceRecords":[{"Value":"ns1.r53.invalid. awsdns-hostmaster.amazon.com. 1 7200 900 1209600 86400"}],"TTL":900,"Type":"SOA"}}
"#;

const ZONE_AND_SET: &[u8] = br#"{"HostedZone":{"Id":"Z1","Name":"example.com."}}
{"ResourceRecordSet":{"Name":"example.com.","ResourceRecords":[{"Value":"ns1.r53.invalid."},{"Value":"ns2.r53.invalid."},{"Value":"ns3.r53.invalid."},{"Value":"ns4.r53.invalid."}],"TTL":172800,"Type":"NS"}}
{"ResourceRecordSet":{"Name":"example.com.","ResourceRecords":[{"Value":"ns1.r53.invalid. awsdns-hostmaster.amazon.com. 1 7200 900 1209600 86400"}],"TTL":900,"Type":"SOA"}}
{"ResourceRecordSet":{"Name":"www.example.com.","ResourceRecords":[{"Value":"192.0.2.1"}],"TTL":300,"Type":"A"}}
"#;

const CHECK_AND_ZONE: &[u8] =
    br#"{"HealthCheck":{"Disabled":false,"FailureThreshold":3,"Id":"h1","Inverted":false,"Type":"ENDPOINT"}}
{"HostedZone":{"Id":"Z1","Name":"example.com."}}
{"ResourceRecordSet":{"Name":"example.com.","ResourceRecords":[{"Value":"ns1.r53.invalid."},{"Value":"ns2.r53.invalid."},{"Value":"ns3.r53.invalid."},{"Value":"ns4.r53.invalid."}],"TTL":172800,"Type":"NS"}}
{"ResourceRecordSet":{"Name":"example.com.","ResourceRecords":[{"Value":"ns1.r53.invalid. awsdns-hostmaster.amazon.com. 1 7200 900 1209600 86400"}],"TTL":900,"Type":"SOA"}}
"#;

/// Two checks are made, the store is compacted, and the first check goes.
pub(crate) const CHECKS: Session = Session {
    file: EMPTY,
    lines: br#"{"CreateHealthCheck":{"CallerReference":"c","HealthCheckConfig":{"Type":"TCP","IPAddress":"192.0.2.1","Port":80}}}
{"CreateHealthCheck":{"CallerReference":"d","HealthCheckConfig":{"Type":"TCP","IPAddress":"192.0.2.2","Port":80}}}
{"Compact":{"Pieces":3}}
{"DeleteHealthCheck":{"HealthCheckId":"h1"}}
"#,
    replies: br#"{"HealthCheck":{"Id":"h1"},"Ok":"CreateHealthCheck"}
{"HealthCheck":{"Id":"h2"},"Ok":"CreateHealthCheck"}
{"Generation":2,"Ok":"Compact"}
{"Ok":"DeleteHealthCheck"}
"#,
    dumps: &[NOTHING, FIRST_CHECK, BOTH_CHECKS, BOTH_CHECKS, SECOND_CHECK],
};

/// A zone is made, a set comes, it is asked for, and the sets are listed.
pub(crate) const FIRST_ZONE: Session = Session {
    file: EMPTY,
    lines: br#"{"CreateHostedZone":{"Name":"example.com","CallerReference":"a"}}
{"ChangeResourceRecordSets":{"HostedZoneId":"/hostedzone/Z1","ChangeBatch":{"Comment":"web","Changes":[{"Action":"CREATE","ResourceRecordSet":{"Name":"www.example.com.","Type":"A","TTL":300,"ResourceRecords":[{"Value":"192.0.2.1"}]}}]}}}
{"Query":{"Packet":"12340100000100000000000003777777076578616d706c6503636f6d0000010001","Address":"127.0.0.1"}}
{"ListResourceRecordSets":{"HostedZoneId":"Z1"}}
"#,
    replies: br#"{"HostedZone":{"Id":"Z1","Name":"example.com."},"Ok":"CreateHostedZone"}
{"Ok":"ChangeResourceRecordSets"}
{"Ok":"Query","Reply":"12348500000100010000000003777777076578616d706c6503636f6d0000010001c00c000100010000012c0004c0000201"}
{"IsTruncated":false,"Ok":"ListResourceRecordSets","ResourceRecordSets":[{"Name":"example.com.","ResourceRecords":[{"Value":"ns1.r53.invalid."},{"Value":"ns2.r53.invalid."},{"Value":"ns3.r53.invalid."},{"Value":"ns4.r53.invalid."}],"TTL":172800,"Type":"NS"},{"Name":"example.com.","ResourceRecords":[{"Value":"ns1.r53.invalid. awsdns-hostmaster.amazon.com. 1 7200 900 1209600 86400"}],"TTL":900,"Type":"SOA"},{"Name":"www.example.com.","ResourceRecords":[{"Value":"192.0.2.1"}],"TTL":300,"Type":"A"}]}
"#,
    dumps: &[NOTHING, ZONE, ZONE_AND_SET],
};

/// A compaction in three pieces, and a check that is made behind the first of them.
pub(crate) const IN_PIECES: Session = Session {
    file: EMPTY,
    lines: br#"{"Compact":{"Pieces":1}}
{"CreateHealthCheck":{"CallerReference":"c","HealthCheckConfig":{"Type":"TCP","IPAddress":"192.0.2.1","Port":80}}}
{"Compact":{"Pieces":1}}
{"Compact":{"Pieces":1}}
"#,
    replies: br#"{"Left":34,"Ok":"Compact"}
{"HealthCheck":{"Id":"h1"},"Ok":"CreateHealthCheck"}
{"Left":2,"Ok":"Compact"}
{"Generation":2,"Ok":"Compact"}
"#,
    dumps: &[NOTHING, NOTHING, FIRST_CHECK],
};

/// Ports are wanted, a check is made, ports are bound, and up to ten turns are taken.
pub(crate) const SERVING: Session = Session {
    file: ZONED,
    lines: br#"{"Serve":{"Turns":10}}
{"CreateHealthCheck":{"CallerReference":"c","HealthCheckConfig":{"Type":"TCP","IPAddress":"192.0.2.1","Port":80}}}
{"Bind":{"QueryPort":53,"ReportPort":54}}
{"Serve":{"Turns":10}}
"#,
    replies: br#"{"Error":"NotBound","Number":34}
{"HealthCheck":{"Id":"h1"},"Ok":"CreateHealthCheck"}
{"Ok":"Bind","QueryPort":53,"ReportPort":54}
{"Answered":1,"Ok":"Serve","Quiet":0,"Reports":1,"Silent":0,"Turns":3,"Unknown":1}
"#,
    dumps: &[ZONE, ZONE, CHECK_AND_ZONE],
};
