//! The properties of a manifest.

ghost use Rattle.std.specs.Prelude.{◌≡◌, bytes_eq, find, option_map};
ghost use Rattle.roster_values.specs.Kinds.{all_kinds};
ghost use Rattle.csv_sets.specs.Properties.{property_name, property_of};

use roster_values::Kind;

/// A property of a manifest that is read: by OneRoster 1.1 two versions, and of each kind's file how it is to be read.
#[derive(Clone, Copy, Debug, PartialEq, Eq)]
pub enum Property {
    /// `manifest.version`.
    ManifestVersion,
    /// `oneroster.version`.
    OneRosterVersion,
    /// `file.` and the stem of a kind's file.
    FileOf(Kind),
}

impl Property {
    /// Its name, as the first cell of a record has it.
    pub fn name(self) -> &'static str
        ensures { result.now ≡ property_name self }
    {
        match self {
            Property::ManifestVersion => "manifest.version",
            Property::OneRosterVersion => "oneroster.version",
            Property::FileOf(kind) => file_property(kind),
        }
    }

    /// The property of that name, letter by letter.
    pub fn read(name: &str) -> Option<Property>
        ensures { result ≡ property_of name.now }
    {
        match name {
            "manifest.version" => Some(Property::ManifestVersion),
            "oneroster.version" => Some(Property::OneRosterVersion),
            _ => file_named(name),
        }
    }
}

// The name of the property of a kind's file.
fn file_property(kind: Kind) -> &'static str
    ensures { result.now ≡ property_name (Property.FileOf kind) }
{
    match kind {
        Kind::Orgs => "file.orgs",
        Kind::AcademicSessions => "file.academicSessions",
        Kind::Courses => "file.courses",
        Kind::Classes => "file.classes",
        Kind::Users => "file.users",
        Kind::Enrollments => "file.enrollments",
        Kind::Demographics => "file.demographics",
        Kind::Categories => "file.categories",
        Kind::LineItems => "file.lineItems",
        Kind::Results => "file.results",
        Kind::Resources => "file.resources",
        Kind::ClassResources => "file.classResources",
        Kind::CourseResources => "file.courseResources",
    }
}

// The property of a kind's file that has that name.
fn file_named(name: &str) -> Option<Property>
    ensures { result ≡ option_map (λ kind. Property.FileOf kind)
        (find (λ kind. bytes_eq (property_name (Property.FileOf kind)) name.now) all_kinds) }
{
    first_named(&Kind::ALL, name).map(Property::FileOf)
}

// The first of the kinds whose file's property has that name.
fn first_named(kinds: &[Kind], name: &str) -> Option<Kind>
    ensures { result ≡ find (λ kind. bytes_eq (property_name (Property.FileOf kind)) name.now) kinds.now }
{
    kinds
        .iter()
        .copied()
        .find(|kind| file_property(*kind) == name)
}
