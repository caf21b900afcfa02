//! The structs of the kinds as one, read by place.

ghost use Rattle.std.specs.Prelude.{◌≡◌, ◌<◌, ◌≤◌, true, None, IfOk, OnOk, drop, length, option_map, slice_index_or};
ghost use Rattle.std.specs.Prelude.{take};
ghost use Rattle.std.specs.Bool.{Decides};
ghost use Rattle.roster_types.specs.Shapes.{own_fields, shapes_fit};
ghost use Rattle.roster_types.specs.Structs.{kind_of, values_of};
ghost use Rattle.roster_values.specs.Table.{common_fields};
ghost use Rattle.roster_values.specs.Value.{shown};

use crate::academic_sessions::AcademicSession;
use crate::categories::Category;
use crate::class_resources::ClassResource;
use crate::classes::Class;
use crate::course_resources::CourseResource;
use crate::courses::Course;
use crate::demographics::Demographic;
use crate::enrollments::Enrollment;
use crate::line_items::LineItem;
use crate::orgs::Org;
use crate::resources::Resource;
use crate::results::Score;
use crate::users::User;
use roster_base::NoMemory;
use roster_values::fields::COMMON_FIELDS;
use roster_values::{Kind, Value, ValueRef, are_same_fields};
use std::alloc::Global;

/// The struct of a row's kind, on the heap, so that a row has one size in a list whatever its kind.
#[derive(Drop)]
pub enum Fields {
    Orgs(Box<Org>),
    AcademicSessions(Box<AcademicSession>),
    Courses(Box<Course>),
    Classes(Box<Class>),
    Users(Box<User>),
    Enrollments(Box<Enrollment>),
    Demographics(Box<Demographic>),
    Categories(Box<Category>),
    LineItems(Box<LineItem>),
    Results(Box<Score>),
    Resources(Box<Resource>),
    ClassResources(Box<ClassResource>),
    CourseResources(Box<CourseResource>),
}

fn boxed<T: Drop>(alloc: Global, made: T) -> Result<Box<T>, NoMemory>
    ensures { IfOk result (λ b. b.value ≡ made) }
{
    Ok(Box::new(alloc, made)?)
}

impl Fields {
    /// The kind of the struct.
    pub fn kind(&self) -> Kind
        ensures { result ≡ kind_of self.now }
    {
        match self {
            Fields::Orgs(_) => Kind::Orgs,
            Fields::AcademicSessions(_) => Kind::AcademicSessions,
            Fields::Courses(_) => Kind::Courses,
            Fields::Classes(_) => Kind::Classes,
            Fields::Users(_) => Kind::Users,
            Fields::Enrollments(_) => Kind::Enrollments,
            Fields::Demographics(_) => Kind::Demographics,
            Fields::Categories(_) => Kind::Categories,
            Fields::LineItems(_) => Kind::LineItems,
            Fields::Results(_) => Kind::Results,
            Fields::Resources(_) => Kind::Resources,
            Fields::ClassResources(_) => Kind::ClassResources,
            Fields::CourseResources(_) => Kind::CourseResources,
        }
    }

    /// The value at a place among the kind's own fields, where there is one.
    pub fn value(&self, place: usize) -> Option<ValueRef<'_>>
        requires { place < length (values_of self.now) }
        ensures { option_map shown result ≡ slice_index_or (values_of self.now) place None }
    {
        match self {
            Fields::Orgs(fields) => fields.value(place),
            Fields::AcademicSessions(fields) => fields.value(place),
            Fields::Courses(fields) => fields.value(place),
            Fields::Classes(fields) => fields.value(place),
            Fields::Users(fields) => fields.value(place),
            Fields::Enrollments(fields) => fields.value(place),
            Fields::Demographics(fields) => fields.value(place),
            Fields::Categories(fields) => fields.value(place),
            Fields::LineItems(fields) => fields.value(place),
            Fields::Results(fields) => fields.value(place),
            Fields::Resources(fields) => fields.value(place),
            Fields::ClassResources(fields) => fields.value(place),
            Fields::CourseResources(fields) => fields.value(place),
        }
    }

    /// Whether the values of two structs with as many are equal.
    pub fn has_same_values(&self, other: &Fields, count: usize) -> bool
        requires left { count ≡ length (values_of self.now) }
        requires right { count ≡ length (values_of other.now) }
        ensures { Decides result (values_of self.now ≡ values_of other.now) }
    {
        for place in 0..count {
            if !are_same_fields(self.value(place), other.value(place)) {
                return false;
            }
        }
        true
    }

    /// The struct of a kind, made of the values of its own fields. They stand behind those of the common fields, which
    /// are left.
    pub fn take_from(
        alloc: Global,
        kind: Kind,
        values: &mut Vec<Option<Value>>,
    ) -> Result<Fields, NoMemory>
        requires within { common_fields ≤ length values.old.items }
        requires shapes { shapes_fit (own_fields kind) (drop common_fields values.old.items) ≡ true }
        ensures values { IfOk result (λ f. values_of f ≡ drop common_fields values.old.items) }
        ensures kind { IfOk result (λ f. kind_of f ≡ kind) }
        ensures left { OnOk result (values.new.items ≡ take common_fields values.old.items) }
    {
        let fields = Fields::made_of(alloc, kind, &mut values[COMMON_FIELDS..])?;
        values.truncate(COMMON_FIELDS);
        Ok(fields)
    }

    // The struct of these values, on the heap.
    fn made_of(alloc: Global, kind: Kind, values: &mut [Option<Value>]) -> Result<Fields, NoMemory>
        requires { shapes_fit (own_fields kind) values.old ≡ true }
        ensures values { IfOk result (λ f. values_of f ≡ values.old) }
        ensures kind { IfOk result (λ f. kind_of f ≡ kind) }
    {
        Ok(match kind {
            Kind::Orgs => Fields::Orgs(boxed(alloc, Org::take_from(values))?),
            Kind::AcademicSessions => {
                Fields::AcademicSessions(boxed(alloc, AcademicSession::take_from(values))?)
            }
            Kind::Courses => Fields::Courses(boxed(alloc, Course::take_from(values))?),
            Kind::Classes => Fields::Classes(boxed(alloc, Class::take_from(values))?),
            Kind::Users => Fields::Users(boxed(alloc, User::take_from(values))?),
            Kind::Enrollments => Fields::Enrollments(boxed(alloc, Enrollment::take_from(values))?),
            Kind::Demographics => {
                Fields::Demographics(boxed(alloc, Demographic::take_from(values))?)
            }
            Kind::Categories => Fields::Categories(boxed(alloc, Category::take_from(values))?),
            Kind::LineItems => Fields::LineItems(boxed(alloc, LineItem::take_from(values))?),
            Kind::Results => Fields::Results(boxed(alloc, Score::take_from(values))?),
            Kind::Resources => Fields::Resources(boxed(alloc, Resource::take_from(values))?),
            Kind::ClassResources => {
                Fields::ClassResources(boxed(alloc, ClassResource::take_from(values))?)
            }
            Kind::CourseResources => {
                Fields::CourseResources(boxed(alloc, CourseResource::take_from(values))?)
            }
        })
    }
}
