//! A small district: two schools, a course of each level, a class in each school.

use roster_texts::Moment;
use roster_types::set::RosterSet;
use std::alloc::Global;
use std::test::Fail;
use test_lake::set_of;
use version_changes::set_change;
use version_core::table::Table;

static FILES: [(&str, &str); 14] = [
    (
        "manifest.csv",
        "propertyName,value\nmanifest.version,1.0\noneroster.version,1.1\nfile.orgs,bulk\nfile.academicSessions,bulk\n\
file.courses,bulk\nfile.classes,bulk\nfile.users,bulk\nfile.enrollments,bulk\nfile.demographics,bulk\nfile.categories,bulk\n\
file.lineItems,bulk\nfile.results,bulk\nfile.resources,bulk\nfile.classResources,bulk\nfile.courseResources,bulk\n",
    ),
    (
        "orgs.csv",
        "sourcedId,name,type,parentSourcedId,metadata.room\nd1,Lake,district,,\ns1,East,school,d1,b\ns2,West,school,d1,A\n",
    ),
    (
        "academicSessions.csv",
        "sourcedId,title,type,startDate,endDate,parentSourcedId,schoolYear\n\
y,Year,schoolYear,2024-08-01,2025-06-30,,2025\nt1,Fall,term,2024-08-01,2024-12-20,y,2025\n\
g1,Quarter,gradingPeriod,2024-08-01,2024-10-11,t1,2025\n",
    ),
    (
        "courses.csv",
        "sourcedId,title,orgSourcedId\nalg,Algebra,d1\nbio,Biology,s1\n",
    ),
    (
        "classes.csv",
        "sourcedId,title,grades,courseSourcedId,classType,schoolSourcedId,termSourcedIds\n\
k1,Algebra 1,\"09,10\",alg,scheduled,s1,t1\nk2,Biology 1,,bio,scheduled,s2,t1\n",
    ),
    (
        "users.csv",
        "sourcedId,enabledUser,orgSourcedIds,role,username,givenName,familyName,grades\n\
u1,true,s1,student,a,Ann,Oak,09\nu2,true,\"s1,s2\",student,b,Ben,Oak,10\nu3,true,s2,teacher,c,Cy,Dow,\nu4,true,s1,guardian,d,Dee,Ash,\n",
    ),
    (
        "enrollments.csv",
        "sourcedId,classSourcedId,schoolSourcedId,userSourcedId,role\n\
e1,k1,s1,u1,student\ne2,k2,s2,u2,student\ne3,k2,s2,u3,teacher\ne4,k1,s1,u3,teacher\n",
    ),
    (
        "demographics.csv",
        "sourcedId,birthDate,sex\nu1,2009-03-04,female\n",
    ),
    ("categories.csv", "sourcedId,title\nhw,Homework\n"),
    (
        "lineItems.csv",
        "sourcedId,title,assignDate,dueDate,classSourcedId,categorySourcedId,gradingPeriodSourcedId\n\
l1,Set 1,2024-08-15,2024-08-22,k1,hw,g1\nl2,Set 2,2024-08-15,2024-08-22,k2,hw,g1\n",
    ),
    (
        "results.csv",
        "sourcedId,lineItemSourcedId,studentSourcedId,scoreStatus,score,scoreDate\n\
r1,l1,u1,fully graded,78,2024-08-23\nr2,l2,u2,exempt,,2024-08-23\n",
    ),
    (
        "resources.csv",
        "sourcedId,vendorResourceId\nx1,V1\nx2,V2\nx3,V3\nx4,V4\n",
    ),
    (
        "classResources.csv",
        "sourcedId,classSourcedId,resourceSourcedId\na1,k1,x1\na2,k2,x2\n",
    ),
    (
        "courseResources.csv",
        "sourcedId,courseSourcedId,resourceSourcedId\nb1,bio,x3\n",
    ),
];

fn publish(alloc: Global, table: &mut Table, set: RosterSet) -> Result<(), Fail> {
    let at = Moment::at(1_000).ok_or("a moment")?;
    match set_change(alloc, table, set, at) {
        Ok(Some(change)) => {
            let Ok(()) = table.reserve(&change) else {
                drop(change);
                return Err(Fail::new("no memory"));
            };
            table.add(change);
            Ok(())
        }
        _ => Err(Fail::new("no version")),
    }
}

/// A table with the district in version 1.
pub fn table(alloc: Global) -> Result<Table, Fail> {
    let set = set_of(alloc, &FILES)?;
    let mut table = Table::new(alloc, 1);
    match publish(alloc, &mut table, set) {
        Ok(()) => Ok(table),
        Err(fail) => {
            drop(table);
            Err(fail)
        }
    }
}
