//! The router of the hub's paths.

ghost use Rattle.std.specs.Prelude.{◌≡◌, IfOk, OnOk, Some};
ghost use Rattle.rest_paths.specs.Routed.{table_router, with_route, with_routes};

use crate::route::Route;
use matchit::Router;
use roster_base::NoMemory;
use std::alloc::Global;
use std::marker::Model;

/// A router that holds the hub's routes.
#[derive(Drop)]
pub struct PathRouter {
    router: Router<Route>,
}

impl Model for PathRouter {
    ghost use Rattle.std.specs.Prelude.{◌≡◌, Some};
    ghost use Rattle.rest_paths.specs.Routed.{Routed, table_router};

    ghost Value = { Routed };

    ghost view = { λ r. r.router };

    ghost invariant = { λ r. table_router ≡ Some r.router };
}

impl PathRouter {
    ghost use Rattle.rest_paths.specs.Routed.{route_of};

    /// A router over the table of all routes.
    pub fn new(alloc: Global) -> Result<PathRouter, NoMemory> {
        Ok(PathRouter {
            router: table_router(alloc)?,
        })
    }

    /// The route of a path.
    pub fn route(&self, path: &str) -> Option<Route>
        ensures { result ≡ route_of path.now }
    {
        match self.router.at(path) {
            Ok(found) => Some(*found.value),
            Err(_) => None,
        }
    }
}

// The router over the table of all routes.
fn table_router(alloc: Global) -> Result<Router<Route>, NoMemory>
    ensures { IfOk result (λ r. table_router ≡ Some r) }
{
    let mut router = Router::new(alloc);
    add_all(&mut router, &Route::ALL)?;
    Ok(router)
}

// Adds routes, one after another.
fn add_all(router: &mut Router<Route>, routes: &[Route]) -> Result<(), NoMemory>
    ensures { OnOk result (with_routes routes.now router.old ≡ Some router.new) }
{
    for route in routes {
        add(router, *route)?;
    }
    Ok(())
}

// Adds a route. No two routes of the table conflict, so that only memory can be wanting.
fn add(router: &mut Router<Route>, route: Route) -> Result<(), NoMemory>
    ensures { OnOk result (with_route route router.old ≡ Some router.new) }
{
    match router.insert(route.pattern(), route) {
        Ok(()) => Ok(()),
        Err(_) => Err(NoMemory),
    }
}
