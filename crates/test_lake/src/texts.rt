//! The files of `examples/lake`, byte by byte.

static FILES: [(&str, &str); 11] = [
    (
        "manifest.csv",
        r#"propertyName,value
manifest.version,1.0
oneroster.version,1.1
file.orgs,bulk
file.academicSessions,bulk
file.courses,bulk
file.classes,bulk
file.users,bulk
file.enrollments,delta
file.demographics,bulk
file.categories,bulk
file.lineItems,bulk
file.results,bulk
file.resources,absent
file.classResources,absent
file.courseResources,absent
source.systemName,Lake SIS
source.systemCode,LSIS
"#,
    ),
    (
        "orgs.csv",
        r#"sourcedId,status,dateLastModified,name,type,identifier,parentSourcedId
d1,,,"Lake District, Unified",district,LDU,
s1,,,East High,school,E-1,d1
s2,,,West High,school,,d1
"#,
    ),
    (
        "academicSessions.csv",
        r#"sourcedId,status,dateLastModified,title,type,startDate,endDate,parentSourcedId,schoolYear
y25,,,2024-25,schoolYear,2024-08-01,2025-06-30,,2025
t1,,,Fall,term,2024-08-01,2024-12-20,y25,2025
g1,,,Quarter 1,gradingPeriod,2024-08-01,2024-10-11,t1,2025
"#,
    ),
    (
        "courses.csv",
        r#"sourcedId,status,dateLastModified,schoolYearSourcedId,title,courseCode,grades,orgSourcedId,subjects,subjectCodes
alg,,,y25,Algebra I,ALG1,"09,10",d1,Mathematics,
"#,
    ),
    (
        "classes.csv",
        r#"sourcedId,status,dateLastModified,title,grades,courseSourcedId,classCode,classType,location,schoolSourcedId,termSourcedIds,subjects,subjectCodes,periods
k1,,,Algebra I A,"09,10",alg,A,scheduled,Room 4,s1,t1,,,"1,3"
k2,,,Algebra I B,09,alg,B,scheduled,,s2,t1,,,2
"#,
    ),
    (
        "users.csv",
        r#"sourcedId,status,dateLastModified,enabledUser,orgSourcedIds,role,username,userIds,givenName,familyName,middleName,identifier,email,sms,phone,agentSourcedIds,grades,password,metadata.locker
u1,,,true,s1,student,aoak,"{LDAP:aoak},{SIS:77}",Ann,Oak,,,,,,u4,09,secret,12
u2,,,true,"s1,s2",student,boak,,Ben,Oak,,,,,,,10,,
u3,,,true,s2,teacher,cdow,,Cy,Dow,,,,,,,,,
u4,,,true,s1,guardian,doak,,Dee,Oak,,,,,,u1,,,
"#,
    ),
    (
        "enrollments.csv",
        r#"sourcedId,status,dateLastModified,classSourcedId,schoolSourcedId,userSourcedId,role,primary,beginDate,endDate
e1,active,2024-07-20T08:00:00.000Z,k1,s1,u1,student,,2024-08-12,
e2,active,2024-07-20T08:00:00.000Z,k2,s2,u2,student,,,
e3,active,2024-07-20T08:00:00.000Z,k2,s2,u3,teacher,true,,
"#,
    ),
    (
        "demographics.csv",
        r#"sourcedId,status,dateLastModified,birthDate,sex
u1,,,2009-03-04,female
"#,
    ),
    (
        "categories.csv",
        r#"sourcedId,status,dateLastModified,title
hw,,,Homework
"#,
    ),
    (
        "lineItems.csv",
        r#"sourcedId,status,dateLastModified,title,description,assignDate,dueDate,classSourcedId,categorySourcedId,gradingPeriodSourcedId,resultValueMin,resultValueMax
li1,,,Set 1,,2024-08-15,2024-08-22,k1,hw,g1,0,100
"#,
    ),
    (
        "results.csv",
        r#"sourcedId,status,dateLastModified,lineItemSourcedId,studentSourcedId,scoreStatus,score,scoreDate,comment
r1,,,li1,u1,fully graded,78.0,2024-08-23,
"#,
    ),
];

/// Each file's name and its text.
pub fn files() -> &'static [(&'static str, &'static str)] {
    &FILES
}

/// The text of the file with that name, if there is one.
pub fn text_of(name: &str) -> Option<&'static str> {
    for (known, text) in &FILES {
        if *known == name {
            return Some(*text);
        }
    }
    None
}
