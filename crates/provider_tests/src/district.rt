//! A district of two schools with a class each, the grants of five callers, and a hub that has both.

ghost use Rattle.std.specs.Prelude.{IfOk};
ghost use Rattle.hub_core.specs.Standing.{KeeperFits};

use grant_files::read_grants;
use grant_scopes::GrantList;
use hub_core::Hub;
use keeper_memory::HubKeeper;
use roster_texts::Moment;
use std::alloc::Global;
use std::process::Abort;
use std::test::Fail;
use test_lake::set_of;

static FILES: [(&str, &str); 8] = [
    (
        "manifest.csv",
        "propertyName,value\nmanifest.version,1.0\noneroster.version,1.1\nfile.orgs,bulk\nfile.academicSessions,bulk\n\
file.courses,bulk\nfile.classes,bulk\nfile.users,bulk\nfile.categories,bulk\nfile.lineItems,bulk\n",
    ),
    (
        "orgs.csv",
        "sourcedId,status,dateLastModified,name,type,identifier,parentSourcedId\n\
d1,,,Lake,district,,\ns1,,,East,school,,d1\ns2,,,West,school,,d1\n",
    ),
    (
        "academicSessions.csv",
        "sourcedId,status,dateLastModified,title,type,startDate,endDate,parentSourcedId,schoolYear\n\
t1,,,Fall,term,2024-08-01,2024-12-20,,2025\ng1,,,Quarter 1,gradingPeriod,2024-08-01,2024-10-11,t1,2025\n",
    ),
    (
        "courses.csv",
        "sourcedId,status,dateLastModified,schoolYearSourcedId,title,courseCode,grades,orgSourcedId,subjects,subjectCodes\n\
alg,,,,Algebra,,09,d1,,\n",
    ),
    (
        "classes.csv",
        "sourcedId,status,dateLastModified,title,grades,courseSourcedId,classCode,classType,location,schoolSourcedId,termSourcedIds,subjects,subjectCodes,periods\n\
k1,,,Algebra A,09,alg,,scheduled,,s1,t1,,,1\nk2,,,Algebra B,09,alg,,scheduled,,s2,t1,,,2\n",
    ),
    (
        "users.csv",
        "sourcedId,status,dateLastModified,enabledUser,orgSourcedIds,role,username,userIds,givenName,familyName,middleName,identifier,email,sms,phone,agentSourcedIds,grades,password\n\
u1,,,true,s1,student,aoak,,Ann,Oak,,,,,,,,\nu2,,,true,s2,student,boak,,Ben,Oak,,,,,,,,\n",
    ),
    (
        "categories.csv",
        "sourcedId,status,dateLastModified,title\nhw,,,Homework\n",
    ),
    (
        "lineItems.csv",
        "sourcedId,status,dateLastModified,title,description,assignDate,dueDate,classSourcedId,categorySourcedId,gradingPeriodSourcedId,resultValueMin,resultValueMax\n\
li1,,,Set 1,,2024-08-15,2024-08-22,k1,hw,g1,0,100\nli2,,,Set 2,,2024-08-15,2024-08-22,k2,hw,g1,0,100\n",
    ),
];

static GRANTS: &str = "caller,token,scopes,schools\n\
roster,tok-r,roster-core.readonly,s1\nall,tok-a,roster.readonly,*\n\
grades,tok-g,gradebook.createput gradebook.delete,*\n\
east,tok-e,gradebook.createput gradebook.delete,s1\nwest,tok-w,gradebook.createput gradebook.delete,s2\n";

fn grants(rt: &impl Abort, alloc: Global) -> Result<GrantList, Fail> {
    match read_grants(alloc, GRANTS.as_bytes()) {
        Ok(list) => Ok(list),
        Err(_) => panic!(rt; "no grants"),
    }
}

/// The moment of each call, in milliseconds.
pub const SECOND: i64 = 1_000;

/// The moment of each call.
pub fn moment(rt: &impl Abort) -> Moment {
    match Moment::at(SECOND) {
        Some(at) => at,
        None => panic!(rt; "no moment"),
    }
}

// Rows in version 1, grants in version 2.
fn fill<H: HubKeeper>(
    rt: &impl Abort,
    alloc: Global,
    hub: &mut Hub,
    keeper: &mut H,
) -> Result<(), Fail>
    requires { KeeperFits (H.stands_for keeper.old) hub.old }
    ensures { KeeperFits (H.stands_for keeper.new) hub.new }
{
    let list = grants(rt, alloc)?;
    let set = set_of(alloc, &FILES)?;
    let published = hub.publish(alloc, keeper, set, moment(rt));
    drop(published);
    let granted = hub.set_grants(alloc, keeper, &list, moment(rt));
    drop(granted);
    Ok(())
}

/// A hub over a keeper: rows in version 1, grants in version 2.
pub fn opened<H: HubKeeper>(rt: &impl Abort, alloc: Global, keeper: &mut H) -> Result<Hub, Fail>
    ensures { IfOk result (λ hub. KeeperFits (H.stands_for keeper.new) hub) }
{
    let Ok(mut hub) = Hub::open(alloc, keeper) else {
        panic!(rt; "no hub");
    };
    match fill(rt, alloc, &mut hub, keeper) {
        Ok(()) => Ok(hub),
        Err(error) => {
            drop(hub);
            Err(error)
        }
    }
}
