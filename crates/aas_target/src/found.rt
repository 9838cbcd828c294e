// Which resource a path names.
ghost use Rattle.std.specs.Prelude.{◌≡◌, ◌<◌, ◌∷◌, [], is_some, map, option_map, IfSome, IfNone, IsSome, Some, length};
ghost use Rattle.std.specs.Option.{option_map_or};
ghost use Rattle.form_urlencoded.specs.Form.{split};
ghost use Rattle.aas_target.specs.Routes.{first_with, first_within_shell, path_in, query_in, resource_at, resource_with, texts_of};
ghost use Rattle.aas_target.specs.Seen.{found_of, segment_of, texts_of as texts_seen};

use crate::method::Method;
use crate::routes::{OTHER_RESOURCES, Resource, SUBMODEL_RESOURCES, Segment};
use arrayvec::ArrayVec;
use memchr::memchr;

/// How many segments the path of a resource has at most, as `shells/ID/submodels/ID/submodel-elements/PATH/$value`.
const MOST_SEGMENTS: usize = 7;

/// The segments of a path that are parameters, as they are sent; empty where it has none.
#[derive(Clone, Copy)]
pub struct Texts<'a> {
    /// That of the identifier of a document.
    pub id: &'a [u8],
    /// That of the identifier of a submodel to which a shell refers.
    pub submodel: &'a [u8],
    /// That of the path of an element.
    pub path: &'a [u8],
}

/// A resource that a path names.
#[derive(Clone, Copy)]
pub struct Found<'a> {
    pub resource: Resource,
    /// The segment of the shell through which it is reached, if it is.
    pub through: Option<&'a [u8]>,
    pub texts: Texts<'a>,
}

impl<'a> Texts<'a> {
    ghost use Rattle.aas_target.specs.Routes.{no_texts, with_text};

    fn none() -> Texts<'a>
        ensures { texts_seen result ≡ no_texts }
    {
        Texts {
            id: &[],
            submodel: &[],
            path: &[],
        }
    }

    /// With the text of a segment, if that is a parameter.
    fn with(self, segment: Segment, text: &'a [u8]) -> Texts<'a>
        ensures { texts_seen result ≡ with_text (segment_of segment) text.now (texts_seen self.entry) }
    {
        match segment {
            Segment::Id => Texts { id: text, ..self },
            Segment::Submodel => Texts {
                submodel: text,
                ..self
            },
            Segment::Path => Texts { path: text, ..self },
            _ => self,
        }
    }
}

impl Found<'_> {
    ghost use Rattle.aas_target.specs.Routes.{methods_of};

    /// The methods that it has here.
    pub fn methods(&self) -> &'static [Method]
        ensures { result.now ≡ methods_of (found_of self.now) }
    {
        self.resource.methods(self.through.is_some())
    }
}

/// The path of a target, and its query, which is behind the first `?`.
pub fn path_and_query(target: &[u8]) -> (&[u8], &[u8])
    ensures path { result.0.now ≡ path_in target.now }
    ensures query { result.1.now ≡ query_in target.now }
{
    match memchr(b'?', target) {
        Some(place) => (&target[..place], &target[place + 1..]),
        None => (target, &[]),
    }
}

/// The resource that has the path, or nothing where none has it.
#[tactic(auto, unfolding(crate::specs::Routes::resource_at))]
pub fn resource_at(path: &[u8]) -> Option<Found<'_>>
    ensures { option_map found_of result ≡ resource_at path.now }
{
    match path {
        [b'/', path @ ..] => resource_with(&segments_of(path)?),
        _ => None,
    }
}

/// The segments of what stands behind the first slash, or nothing where they are more than the path of any resource has.
fn segments_of(path: &[u8]) -> Option<ArrayVec<&[u8], MOST_SEGMENTS>>
    ensures some { IfSome result (λ texts. map (λ text. text.now) texts.items ≡ split 47 path.now) }
    ensures none { IfNone result (MOST_SEGMENTS < length (split 47 path.now)) }
{
    let mut texts = ArrayVec::new();
    let mut left = Some(path);
    while let Some(path) = left {
        if texts.is_full() {
            return None;
        }
        let (text, rest) = cut(path, b'/');
        texts.push(text);
        left = rest;
    }
    Some(texts)
}

/// The resource whose path has segments with these texts.
#[tactic(auto, unfolding(crate::specs::Routes::resource_with))]
fn resource_with<'a>(texts: &[&'a [u8]]) -> Option<Found<'a>>
    ensures { option_map found_of result ≡ resource_with (map (λ text. text.now) texts.now) }
{
    if let Some(found) = first_with(&OTHER_RESOURCES, texts) {
        return Some(found);
    }
    if let Some(found) = first_with(&SUBMODEL_RESOURCES, texts) {
        return Some(found);
    }
    first_within_shell(texts)
}

/// The first of some resources whose path has segments with these texts.
#[inline(never)]
fn first_with<'a>(resources: &[Resource], texts: &[&'a [u8]]) -> Option<Found<'a>>
    ensures { option_map found_of result ≡ first_with resources.now (map (λ text. text.now) texts.now) }
{
    for resource in resources {
        let segments = resource.segments();
        if have(segments, texts) {
            return Some(Found {
                resource: *resource,
                through: None,
                texts: texts_of(segments, texts),
            });
        }
    }
    None
}

/// The resource of one submodel whose path has them, behind `shells` and the segment of a shell.
fn first_within_shell<'a>(texts: &[&'a [u8]]) -> Option<Found<'a>>
    ensures { option_map found_of result ≡ first_within_shell (map (λ text. text.now) texts.now) }
{
    let [name, shell, texts @ ..] = texts else {
        return None;
    };
    if !Segment::Shells.fits(name) || !Segment::Id.fits(shell) {
        return None;
    }
    let found = first_with(&SUBMODEL_RESOURCES, texts)?;
    Some(Found {
        through: Some(shell),
        ..found
    })
}

/// Whether the segments of a path have these texts.
fn have(segments: &[Segment], texts: &[&[u8]]) -> bool
    ensures { result ≡ is_some (texts_of (map segment_of segments.now) (map (λ text. text.now) texts.now)) }
{
    if segments.len() != texts.len() {
        return false;
    }
    // Paths that begin alike differ at their ends.
    for index in (0..segments.len()).rev() {
        if !segments[index].fits(texts[index]) {
            return false;
        }
    }
    true
}

/// The parameters among the texts of a path, which has these segments.
fn texts_of<'a>(segments: &[Segment], texts: &[&'a [u8]]) -> Texts<'a>
    requires { IsSome (texts_of (map segment_of segments.now) (map (λ text. text.now) texts.now)) }
    ensures { Some (texts_seen result) ≡ texts_of (map segment_of segments.now) (map (λ text. text.now) texts.now) }
{
    let mut found = Texts::none();
    for index in (0..segments.len()).rev() {
        found = found.with(segments[index], texts[index]);
    }
    found
}

/// The bytes before the first separator, and those behind it, if there is one.
fn cut(bytes: &[u8], separator: u8) -> (&[u8], Option<&[u8]>)
    ensures { split separator bytes.now ≡ result.0.now ∷ option_map_or (λ rest. split separator rest.now) result.1 [] }
{
    match memchr(separator, bytes) {
        Some(place) => (&bytes[..place], Some(&bytes[place + 1..])),
        None => (bytes, None),
    }
}
