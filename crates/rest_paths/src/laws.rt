//! Laws of the table of routes.

ghost use Rattle.std.specs.Prelude.{◌≡◌, ◌<◌, ◌++◌, ◌∷◌, Some, codes, false, is_some, true, ℕ, List};
ghost use Rattle.rest_paths.specs.Routed.{route_of, table_router};
ghost use Rattle.rest_paths.specs.Routes.{is_gradebook};
ghost use Rattle.rest_paths.specs.declared.route.Collection.TheVariants as collection;
ghost use Rattle.rest_paths.specs.declared.route.Route.TheVariants as route;
ghost use Rattle.matchit.specs.Seek.{has_slash};
ghost use Rattle.roster_values.specs.Kinds.{plural_of};
ghost use Rattle.roster_values.specs.declared.kind.Kind.{Kind as Kinds};

/// A law: no two routes of the table conflict.
pub fn no_two_routes_conflict()
    ensures { is_some table_router ≡ true }
{}

/// A law: the path of each kind's collection is read as the route of that collection.
pub fn collections_are_found()
    ensures { (kind : Kinds) → route_of (codes "/ims/oneroster/v1p1/" ++ plural_of kind)
        ≡ Some (route.All (collection.Of kind)) }
{}

/// A law: the path of each object that takes writes is read as the route of an object of its kind, whatever its last
/// segment.
pub fn gradebook_objects_are_found()
    ensures { (kind : Kinds) (b : ℕ) (t : List ℕ) → is_gradebook kind ≡ true → b < 256 → has_slash (b ∷ t) ≡ false
        → route_of (codes "/ims/oneroster/v1p1/" ++ plural_of kind ++ codes "/" ++ b ∷ t)
        ≡ Some (route.One (collection.Of kind)) }
{}
