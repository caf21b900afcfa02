//! Paths: a route, and the ids of the objects that it names.

ghost use Rattle.std.specs.Prelude.{◌≡◌, IfOk};
ghost use Rattle.rest_paths.specs.Paths as spec;
ghost use Rattle.std.specs.List.{after_first, before_first};
ghost use Rattle.rest_paths.specs.Segments.{is_slash, segment_at};

use crate::route::Route;
use crate::router::PathRouter;
use filter_grammar::has_whole_escapes;
use percent_encoding::{DecodeError, percent_decode};
use roster_base::{Items, NoMemory};
use roster_texts::Id;
use std::alloc::Global;
use std::marker::Model;

/// A path of the hub. It has one id for each object that its route names.
#[derive(Drop)]
pub struct Path {
    route: Route,
    ids: Items<Id>,
}

impl Model for Path {
    ghost use Rattle.rest_paths.specs.Paths.{IsPath, PathParts};

    ghost Value = { PathParts };

    ghost view = { λ p. record { route = p.route; ids = p.ids } };

    ghost invariant = { λ p. IsPath (record { route = p.route; ids = p.ids }) };
}

impl Path {
    ghost use Rattle.rest_paths.specs.Paths.{IsPath, path_of};

    /// The path that a text writes, if it writes one. Its ids are decoded.
    #[tactic(auto, unfolding(crate::specs::Paths::path_of))]
    pub fn read(alloc: Global, router: &PathRouter, text: &str) -> Result<Option<Path>, NoMemory>
        ensures { IfOk result (λ p. p ≡ path_of text.now) }
    {
        let Some(route) = router.route(text) else {
            return Ok(None);
        };
        match read_ids(alloc, text, route.places())? {
            Some(ids) => Ok(Some(Path { route, ids })),
            None => Ok(None),
        }
    }

    /// The route of the path.
    pub fn route(&self) -> Route
        ensures route { result ≡ self.now.route }
        ensures path { IsPath self.now }
    {
        self.route
    }

    /// The ids of the objects, in their order in the path.
    pub fn ids(&self) -> &[Id]
        ensures ids { result.now ≡ self.now.ids }
        ensures path { IsPath self.now }
    {
        self.ids.as_slice()
    }
}

// The ids at these places of a path.
fn read_ids(alloc: Global, text: &str, places: &[usize]) -> Result<Option<Items<Id>>, NoMemory>
    ensures { IfOk result (λ ids. ids ≡ spec.ids_at places.now text.now) }
{
    let mut ids = Items::new(alloc);
    for place in places {
        let Some(id) = read_id(alloc, segment(text, *place))? else {
            return Ok(None);
        };
        ids.push(id)?;
    }
    Ok(Some(ids))
}

// The piece at a place between slashes.
fn segment(text: &str, place: usize) -> &str
    ensures { result.now ≡ segment_at place text.now }
{
    let (first, later) = cut(text);
    if place == 0 {
        first
    } else {
        segment(later, place - 1)
    }
}

// The text before the first slash, and what is behind it.
fn cut(text: &str) -> (&str, &str)
    ensures front { result.0.now ≡ before_first is_slash text.now }
    ensures behind { result.1.now ≡ after_first is_slash text.now }
{
    match text.split_once('/') {
        Some((first, later)) => (first, later),
        None => (text, ""),
    }
}

// The id that a segment stands for, if it stands for one.
#[tactic(auto, unfolding(crate::specs::Paths::id_in))]
fn read_id(alloc: Global, segment: &str) -> Result<Option<Id>, NoMemory>
    ensures { IfOk result (λ id. id ≡ spec.id_in segment.now) }
{
    if !has_whole_escapes(segment.as_bytes()) {
        return Ok(None);
    }
    match percent_decode(segment.as_bytes()).decode_utf8(alloc) {
        Ok(text) => Id::read(alloc, &text),
        Err(DecodeError::Utf8(_)) => Ok(None),
        Err(DecodeError::OutOfMemory) => Err(NoMemory),
    }
}
