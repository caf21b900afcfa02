//! The fields that the demographics of a user have beside the common ones, by their places in the field table.

ghost use Rattle.std.specs.Prelude.{◌≡◌, ◌<◌, true, None, option_map, slice_index_or};
ghost use Rattle.roster_types.specs.Shapes.{own_fields, shapes_fit};
ghost use Rattle.roster_types.specs.Structs.{demographic_values};
ghost use Rattle.roster_values.specs.Value.{shown};

use crate::lent::lent_word;
use crate::taken::{optional_day, optional_flag, optional_text, optional_word};
use roster_base::Text;
use roster_texts::Day;
use roster_values::{Kind, Value, ValueRef, Word};

/// What the demographics of a user say of themselves beside their id, their status and their moment.
#[derive(Drop)]
pub struct Demographic {
    /// The day of birth.
    pub birth_date: Option<Day>,
    /// The sex.
    pub sex: Option<Word>,
    /// Whether the user is American Indian or Alaska Native. This flag and the six below it are the standard's on race
    /// and ethnicity.
    pub american_indian_or_alaska_native: Option<bool>,
    /// Whether the user is Asian.
    pub asian: Option<bool>,
    /// Whether the user is Black or African American.
    pub black_or_african_american: Option<bool>,
    /// Whether the user is Native Hawaiian or another Pacific Islander.
    pub native_hawaiian_or_other_pacific_islander: Option<bool>,
    /// Whether the user is white.
    pub white: Option<bool>,
    /// Whether the user is of two or more races.
    pub demographic_race_two_or_more_races: Option<bool>,
    /// Whether the user is Hispanic or Latino.
    pub hispanic_or_latino_ethnicity: Option<bool>,
    /// The code of the country of birth.
    pub country_of_birth_code: Option<Text>,
    /// The abbreviation of the state of birth.
    pub state_of_birth_abbreviation: Option<Text>,
    /// The city of birth.
    pub city_of_birth: Option<Text>,
    /// Whether the user's legal residence is within or outside of the bounds of the public school and its district.
    pub public_school_residence_status: Option<Text>,
}

impl Demographic {
    /// The value at a place, where there is one.
    pub fn value(&self, place: usize) -> Option<ValueRef<'_>>
        requires { place < 13 }
        ensures { option_map shown result ≡ slice_index_or (demographic_values self.now) place None }
    {
        match place {
            0 => self.birth_date.as_ref().map(ValueRef::Day),
            1 => lent_word(&self.sex),
            2 => self
                .american_indian_or_alaska_native
                .as_ref()
                .map(ValueRef::Flag),
            3 => self.asian.as_ref().map(ValueRef::Flag),
            4 => self.black_or_african_american.as_ref().map(ValueRef::Flag),
            5 => self
                .native_hawaiian_or_other_pacific_islander
                .as_ref()
                .map(ValueRef::Flag),
            6 => self.white.as_ref().map(ValueRef::Flag),
            7 => self
                .demographic_race_two_or_more_races
                .as_ref()
                .map(ValueRef::Flag),
            8 => self
                .hispanic_or_latino_ethnicity
                .as_ref()
                .map(ValueRef::Flag),
            9 => self.country_of_birth_code.as_ref().map(ValueRef::Text),
            10 => self
                .state_of_birth_abbreviation
                .as_ref()
                .map(ValueRef::Text),
            11 => self.city_of_birth.as_ref().map(ValueRef::Text),
            _ => self
                .public_school_residence_status
                .as_ref()
                .map(ValueRef::Text),
        }
    }

    /// The struct of the values of the kind's own fields, which are taken out of their places.
    pub fn take_from(values: &mut [Option<Value>]) -> Demographic
        requires { shapes_fit (own_fields Kind.Demographics) values.old ≡ true }
        ensures { demographic_values result ≡ values.old }
    {
        Demographic {
            birth_date: optional_day(values, 0),
            sex: optional_word(values, 1),
            american_indian_or_alaska_native: optional_flag(values, 2),
            asian: optional_flag(values, 3),
            black_or_african_american: optional_flag(values, 4),
            native_hawaiian_or_other_pacific_islander: optional_flag(values, 5),
            white: optional_flag(values, 6),
            demographic_race_two_or_more_races: optional_flag(values, 7),
            hispanic_or_latino_ethnicity: optional_flag(values, 8),
            country_of_birth_code: optional_text(values, 9),
            state_of_birth_abbreviation: optional_text(values, 10),
            city_of_birth: optional_text(values, 11),
            public_school_residence_status: optional_text(values, 12),
        }
    }
}
