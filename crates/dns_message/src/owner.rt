//! The owner of an additional record, stepped over and never followed.

ghost use Rattle.std.specs.Prelude.{◌≡◌, ◌<◌, ◌≤◌, ◌+◌, length, take, IfSome, IfNone};
ghost use Rattle.dns_message.specs.Records.{IsOwner};
ghost use Rattle.dns_message.specs.Walk.{BeginsWithoutOwner};

/// How many octets at the front are an owner: labels, and a zero octet or a pointer behind them.
pub(crate) fn owner_len(octets: &[u8]) -> Option<usize>
    ensures within { IfSome result (λ n. n ≤ length octets.now) }
    ensures owner { IfSome result (λ n. IsOwner (take n octets.now)) }
    ensures none { IfNone result (BeginsWithoutOwner octets.now) }
{
    let mut at = 0;
    while at < octets.len() {
        let n = octets[at] as usize;
        if n == 0 {
            return Some(at + 1);
        }
        if n >= 192 {
            if octets.len() - at < 2 {
                return None;
            }
            return Some(at + 2);
        }
        if n > 63 {
            return None;
        }
        if n > octets.len() - at - 1 {
            return None;
        }
        at += n + 1;
    }
    None
}
