//! Three hubs in a row, the district's, a region's and a library's: the lower two follow the one above them, and the
//! district publishes anew. Exchanges are lost and commits fail on the way, and the same words once more bring a reader
//! of the library what the grants above leave of the district's rows.

use crate::hubs::Fault::{Exchange, HubBefore, HubBehind, Nothing};
use crate::hubs::Place::{District, Library, Reader, Region};
use crate::hubs::{Step, assert_scene};
use hub_words::statuses::{DONE, HUB_FAILED, INTERRUPTED};
use std::test::Fail;
use sync_world::Fate::{ReplyLost, RequestLost};

// The row that the region's caller no longer sees is marked at the region, and told as it is there from then on.
const ORGS: &str =
    "{\"orgs\":[{\"dateLastModified\":\"2024-08-01T12:00:00.000Z\",\"identifier\":\"LDU\",\"name\":\"Lake District, Unified\",\"sourcedId\":\"d1\",\"status\":\"active\",\"type\":\"district\"},{\"dateLastModified\":\"2024-08-01T08:00:00.000Z\",\"identifier\":\"E-1\",\"name\":\"East\",\"parent\":{\"href\":\"/ims/oneroster/v1p1/orgs/d1\",\"sourcedId\":\"d1\",\"type\":\"org\"},\"sourcedId\":\"s1\",\"status\":\"active\",\"type\":\"school\"}]}\n";

const ENROLLMENTS: &str =
    "{\"enrollments\":[{\"beginDate\":\"2024-08-12\",\"class\":{\"href\":\"/ims/oneroster/v1p1/classes/k1\",\"sourcedId\":\"k1\",\"type\":\"class\"},\"dateLastModified\":\"2024-08-01T12:00:00.000Z\",\"role\":\"student\",\"school\":{\"href\":\"/ims/oneroster/v1p1/orgs/s1\",\"sourcedId\":\"s1\",\"type\":\"org\"},\"sourcedId\":\"e1\",\"status\":\"tobedeleted\",\"user\":{\"href\":\"/ims/oneroster/v1p1/users/u1\",\"sourcedId\":\"u1\",\"type\":\"user\"}}]}\n";

// The words that follow the hub above, with the token of the grant that it gives.
const FOLLOW_DISTRICT: &str = "follow tok-e 100 1 up";

const FOLLOW_REGION: &str = "follow tok-l 100 1 up";

// A hub commits its grants first, and then what each call cascades.
#[rattlefmt::skip]
static STEPS: [Step; 44] = [
    (District, Nothing, "publish sis=lake", DONE, "sis version 1\n"),
    (District, Nothing, "grant g.csv", DONE, "grants version 2\n"),
    (Region, Nothing, "grant gd.csv", DONE, "grants version 1\n"),
    (Library, Nothing, "grant gd.csv", DONE, "grants version 1\n"),
    (Region, Exchange(RequestLost, 1), FOLLOW_DISTRICT, INTERRUPTED, "interrupted orgs 0\n"),
    (Region, Exchange(ReplyLost, 2), FOLLOW_DISTRICT, INTERRUPTED, "interrupted academicSessions 0\n"),
    (Region, Exchange(RequestLost, 2), FOLLOW_DISTRICT, INTERRUPTED, "interrupted courses 0\n"),
    (Region, Exchange(ReplyLost, 2), FOLLOW_DISTRICT, INTERRUPTED, "interrupted classes 0\n"),
    (Region, Exchange(RequestLost, 2), FOLLOW_DISTRICT, INTERRUPTED, "interrupted users 0\n"),
    (Region, Exchange(ReplyLost, 2), FOLLOW_DISTRICT, INTERRUPTED, "interrupted enrollments 0\n"),
    (Region, Exchange(RequestLost, 2), FOLLOW_DISTRICT, INTERRUPTED, "interrupted demographics 0\n"),
    (Region, Exchange(ReplyLost, 2), FOLLOW_DISTRICT, INTERRUPTED, "interrupted categories 0\n"),
    (Region, Exchange(RequestLost, 2), FOLLOW_DISTRICT, INTERRUPTED, "interrupted lineItems 0\n"),
    (Region, Exchange(ReplyLost, 2), FOLLOW_DISTRICT, INTERRUPTED, "interrupted results 0\n"),
    (Region, Exchange(RequestLost, 2), FOLLOW_DISTRICT, INTERRUPTED, "interrupted resources 0\n"),
    (Region, Exchange(ReplyLost, 2), FOLLOW_DISTRICT, INTERRUPTED, "interrupted classResources 0\n"),
    (Region, Exchange(RequestLost, 2), FOLLOW_DISTRICT, INTERRUPTED, "interrupted courseResources 0\n"),
    (Region, HubBefore(2), FOLLOW_DISTRICT, HUB_FAILED, "complete 2\nhub store failed\n"),
    (Region, HubBehind(3), FOLLOW_DISTRICT, HUB_FAILED, "complete 2\nhub store failed\n"),
    (Region, Nothing, FOLLOW_DISTRICT, DONE, "complete 2\nup unchanged 2\n"),
    (Library, Exchange(RequestLost, 1), FOLLOW_REGION, INTERRUPTED, "interrupted orgs 0\n"),
    (Library, Exchange(ReplyLost, 2), FOLLOW_REGION, INTERRUPTED, "interrupted academicSessions 0\n"),
    (Library, Exchange(RequestLost, 2), FOLLOW_REGION, INTERRUPTED, "interrupted courses 0\n"),
    (Library, Exchange(ReplyLost, 2), FOLLOW_REGION, INTERRUPTED, "interrupted classes 0\n"),
    (Library, Exchange(RequestLost, 2), FOLLOW_REGION, INTERRUPTED, "interrupted users 0\n"),
    (Library, Exchange(ReplyLost, 2), FOLLOW_REGION, INTERRUPTED, "interrupted enrollments 0\n"),
    (Library, Exchange(RequestLost, 2), FOLLOW_REGION, INTERRUPTED, "interrupted demographics 0\n"),
    (Library, Exchange(ReplyLost, 2), FOLLOW_REGION, INTERRUPTED, "interrupted categories 0\n"),
    (Library, Exchange(RequestLost, 2), FOLLOW_REGION, INTERRUPTED, "interrupted lineItems 0\n"),
    (Library, Exchange(ReplyLost, 2), FOLLOW_REGION, INTERRUPTED, "interrupted results 0\n"),
    (Library, Exchange(RequestLost, 2), FOLLOW_REGION, INTERRUPTED, "interrupted resources 0\n"),
    (Library, Exchange(ReplyLost, 2), FOLLOW_REGION, INTERRUPTED, "interrupted classResources 0\n"),
    (Library, Exchange(RequestLost, 2), FOLLOW_REGION, INTERRUPTED, "interrupted courseResources 0\n"),
    (Library, Nothing, FOLLOW_REGION, DONE, "complete 2\nup version 2\n"),
    (Reader, Nothing, "sync tok-l 100 1", DONE, "complete 2\n"),
    (District, Nothing, "publish sis=moved", DONE, "sis version 3\n"),
    (Region, Exchange(ReplyLost, 6), FOLLOW_DISTRICT, INTERRUPTED, "interrupted enrollments 0\n"),
    (Region, Nothing, FOLLOW_DISTRICT, DONE, "complete 3\nup version 3\n"),
    (Library, Exchange(RequestLost, 1), FOLLOW_REGION, INTERRUPTED, "interrupted orgs 0\n"),
    (Library, HubBehind(3), FOLLOW_REGION, HUB_FAILED, "complete 3\nhub store failed\n"),
    (Library, Nothing, FOLLOW_REGION, DONE, "complete 3\nup unchanged 3\n"),
    (Reader, Nothing, "delta tok-l 100 1", DONE, "complete 3\n"),
    (Reader, Nothing, "list orgs", DONE, ORGS),
    (Reader, Nothing, "list enrollments", DONE, ENROLLMENTS),
];

#[test]
fn three_hubs_follow_one_another(rt: HostRuntime) -> Result<(), Fail> {
    assert_scene(&rt, rt.alloc(), &STEPS)
}
