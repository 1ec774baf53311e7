// The request-row audit (document 01, "Request-row audit") over request records: the row is lent, and walked by reference.
#![tactic(auto)]

ghost use Rattle.std.specs.Prelude.{◌≡◌};
ghost use Rattle.audit.specs.Audit.{audit};
ghost use Rattle.endpoint.specs.Endpoint.{rows_of};
ghost use Rattle.record_audit.specs.Records.{ids_of};

use endpoint::{Request, Requests};

// Audits the IDs of a row of request records, beside a number R. The row is only read.
// Ruled out: a record passed over, and a finding for fields other than the ID.
pub fn audit_records(row: &[Request], reserved: u64) -> Option<usize>
    ensures { result ≡ audit reserved (ids_of row.now) }
{
    audit::audit_row(row, reserved)
}

// Audits the live requests of an endpoint, beside a number R. A caller that holds them by value needs no reference to a record.
// Ruled out: a row looked at past those in use, and the last row in use left out.
pub fn audit_live(live: Requests, reserved: u64) -> Option<usize>
    ensures { result ≡ audit reserved (ids_of (rows_of live)) }
{
    audit_records(live.in_use(), reserved)
}
