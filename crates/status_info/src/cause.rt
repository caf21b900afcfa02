//! Why a reply is as it is: one cause for each text.

ghost use Rattle.std.specs.Prelude.{◌≡◌, ◌≤◌, length};
ghost use Rattle.status_info.specs.Bodies.{status_body};
ghost use Rattle.status_info.specs.Causes.{description_of, minor_of, status_of};

// The status body of a refusal, by its minor code and its description.
macro_rules! refusal {
    ($minor:literal, $description:literal) => {
        concat!(
            "{\"imsx_codeMajor\":\"failure\",\"imsx_codeMinor\":\"",
            $minor,
            "\",\"imsx_description\":\"",
            $description,
            "\",\"imsx_severity\":\"error\"}"
        )
    };
}

/// The cause of a reply: why it has its status, and which text says so.
#[derive(Clone, Copy, Debug, PartialEq, Eq)]
pub enum Cause {
    /// A read was answered.
    Done,
    /// A write put a row.
    Stored,
    /// A write deleted a row.
    Deleted,
    /// No request could be read.
    Unreadable,
    /// The hub has no such path.
    NoSuchPath,
    /// The path doesn't take the method.
    MethodNotAllowed,
    /// There is no token of a caller.
    NoKnownToken,
    /// The version that a read is pinned to isn't kept.
    VersionNotKept,
    /// The caller has no scope for the path.
    ScopeMissing,
    /// A query has a bad escape.
    BadEscape,
    /// The limit is no number or 0.
    BadLimit,
    /// The offset is no number.
    BadOffset,
    /// The order is neither `asc` nor `desc`.
    BadOrderBy,
    /// The filter isn't of the form of one.
    BadFilter,
    /// The filter names a field that the kind lacks.
    UnknownFilterField,
    /// The filter's value isn't one of its field.
    BadFilterValue,
    /// The choice of fields is empty.
    EmptyFields,
    /// The version in a query is no number.
    BadHubVersion,
    /// A parameter of a query stands twice.
    RepeatedParameter,
    /// The mark is no number of a write.
    BadMark,
    /// The mark belongs to another write.
    MarkOfAnotherWrite,
    /// The body is no row.
    BadBody,
    /// The caller sees no such object.
    NoSuchObject,
    /// The row belongs to another.
    OwnedByAnother,
    /// The row refers to an object that the caller doesn't see.
    ReferenceOutsideGrant,
    /// The row refers to an object of the wrong type.
    ReferenceOfWrongType,
    /// The hub takes no more rows.
    TooManyRows,
    /// The hub takes no more versions.
    LastVersion,
    /// The hub's store failed.
    StoreFailed,
    /// Memory ran out.
    NoMemory,
    /// The base in a query is no number, or stands beside a choice.
    BadHubSince,
}

impl Cause {
    /// The status of HTTP.
    pub fn status(self) -> u16
        ensures { result ≡ status_of self }
    {
        match self {
            Cause::Done => 200,
            Cause::Stored => 201,
            Cause::Deleted => 204,
            Cause::Unreadable
            | Cause::BadEscape
            | Cause::BadLimit
            | Cause::BadOffset
            | Cause::BadOrderBy
            | Cause::BadFilter
            | Cause::UnknownFilterField
            | Cause::BadFilterValue
            | Cause::EmptyFields
            | Cause::BadHubVersion
            | Cause::RepeatedParameter
            | Cause::BadMark
            | Cause::BadBody
            | Cause::BadHubSince => 400,
            Cause::NoSuchPath | Cause::VersionNotKept | Cause::NoSuchObject => 404,
            Cause::MethodNotAllowed => 405,
            Cause::NoKnownToken => 401,
            Cause::ScopeMissing => 403,
            Cause::MarkOfAnotherWrite
            | Cause::OwnedByAnother
            | Cause::ReferenceOutsideGrant
            | Cause::ReferenceOfWrongType
            | Cause::TooManyRows
            | Cause::LastVersion => 422,
            Cause::StoreFailed => 500,
            Cause::NoMemory => 503,
        }
    }

    /// The minor code of OneRoster 1.1, or a code of our own where the standard has none.
    pub fn minor(self) -> &'static str
        ensures { result.now ≡ minor_of self }
    {
        match self {
            Cause::Done | Cause::Stored | Cause::Deleted => "full_success",
            Cause::Unreadable
            | Cause::BadEscape
            | Cause::BadLimit
            | Cause::BadOffset
            | Cause::BadOrderBy
            | Cause::BadFilter
            | Cause::BadFilterValue
            | Cause::BadHubVersion
            | Cause::RepeatedParameter
            | Cause::BadMark
            | Cause::BadBody
            | Cause::BadHubSince => "invalid_data",
            Cause::NoSuchPath | Cause::NoSuchObject => "unknown_object",
            Cause::MethodNotAllowed => "not_supported",
            Cause::NoKnownToken => "unauthorized",
            Cause::VersionNotKept => "version_not_kept",
            Cause::ScopeMissing => "forbidden",
            Cause::UnknownFilterField => "invalid_filter_field",
            Cause::EmptyFields => "invalid_selection_field",
            Cause::MarkOfAnotherWrite => "mark_taken",
            Cause::OwnedByAnother => "not_owner",
            Cause::ReferenceOutsideGrant | Cause::ReferenceOfWrongType => "invalid_reference",
            Cause::TooManyRows => "too_many_rows",
            Cause::LastVersion => "last_version",
            Cause::StoreFailed => "server_error",
            Cause::NoMemory => "no_memory",
        }
    }

    /// What went wrong, for people; empty where nothing did.
    pub fn description(self) -> &'static str
        ensures { result.now ≡ description_of self }
    {
        match self {
            Cause::Done | Cause::Stored | Cause::Deleted => "",
            Cause::Unreadable => "request unreadable",
            Cause::NoSuchPath => "no such path",
            Cause::MethodNotAllowed => "method not allowed",
            Cause::NoKnownToken => "no known token",
            Cause::VersionNotKept => "version not kept",
            Cause::ScopeMissing => "scope missing",
            Cause::BadEscape => "bad escape",
            Cause::BadLimit => "bad limit",
            Cause::BadOffset => "bad offset",
            Cause::BadOrderBy => "bad orderBy",
            Cause::BadFilter => "bad filter",
            Cause::UnknownFilterField => "unknown filter field",
            Cause::BadFilterValue => "bad filter value",
            Cause::EmptyFields => "empty fields",
            Cause::BadHubVersion => "bad hubVersion",
            Cause::RepeatedParameter => "repeated parameter",
            Cause::BadMark => "bad mark",
            Cause::MarkOfAnotherWrite => "mark of another write",
            Cause::BadBody => "bad body",
            Cause::NoSuchObject => "no such object",
            Cause::OwnedByAnother => "owned by another",
            Cause::ReferenceOutsideGrant => "reference outside the grant",
            Cause::ReferenceOfWrongType => "reference of the wrong type",
            Cause::TooManyRows => "too many rows",
            Cause::LastVersion => "last version",
            Cause::StoreFailed => "store failed",
            Cause::NoMemory => "no memory",
            Cause::BadHubSince => "bad hubSince",
        }
    }

    /// The status body: the body of a 201 and of every refusal.
    #[tactic(auto, unfolding(crate::specs::Bodies::status_body))]
    pub fn status_body(self) -> &'static str
        ensures text { result.now ≡ status_body self }
        ensures short { length result.now ≤ 160 }
    {
        match self {
            Cause::Done | Cause::Stored | Cause::Deleted => concat!(
                "{\"imsx_codeMajor\":\"success\",\"imsx_codeMinor\":\"full_success\",",
                "\"imsx_description\":\"\",\"imsx_severity\":\"status\"}"
            ),
            Cause::Unreadable => refusal!("invalid_data", "request unreadable"),
            Cause::NoSuchPath => refusal!("unknown_object", "no such path"),
            Cause::MethodNotAllowed => refusal!("not_supported", "method not allowed"),
            Cause::NoKnownToken => refusal!("unauthorized", "no known token"),
            Cause::VersionNotKept => refusal!("version_not_kept", "version not kept"),
            Cause::ScopeMissing => refusal!("forbidden", "scope missing"),
            Cause::BadEscape => refusal!("invalid_data", "bad escape"),
            Cause::BadLimit => refusal!("invalid_data", "bad limit"),
            Cause::BadOffset => refusal!("invalid_data", "bad offset"),
            Cause::BadOrderBy => refusal!("invalid_data", "bad orderBy"),
            Cause::BadFilter => refusal!("invalid_data", "bad filter"),
            Cause::UnknownFilterField => refusal!("invalid_filter_field", "unknown filter field"),
            Cause::BadFilterValue => refusal!("invalid_data", "bad filter value"),
            Cause::EmptyFields => refusal!("invalid_selection_field", "empty fields"),
            Cause::BadHubVersion => refusal!("invalid_data", "bad hubVersion"),
            Cause::RepeatedParameter => refusal!("invalid_data", "repeated parameter"),
            Cause::BadMark => refusal!("invalid_data", "bad mark"),
            Cause::MarkOfAnotherWrite => refusal!("mark_taken", "mark of another write"),
            Cause::BadBody => refusal!("invalid_data", "bad body"),
            Cause::NoSuchObject => refusal!("unknown_object", "no such object"),
            Cause::OwnedByAnother => refusal!("not_owner", "owned by another"),
            Cause::ReferenceOutsideGrant => refusal!(
                "invalid_reference",
                "reference outside the grant"
            ),
            Cause::ReferenceOfWrongType => refusal!(
                "invalid_reference",
                "reference of the wrong type"
            ),
            Cause::TooManyRows => refusal!("too_many_rows", "too many rows"),
            Cause::LastVersion => refusal!("last_version", "last version"),
            Cause::StoreFailed => refusal!("server_error", "store failed"),
            Cause::NoMemory => refusal!("no_memory", "no memory"),
            Cause::BadHubSince => refusal!("invalid_data", "bad hubSince"),
        }
    }
}
