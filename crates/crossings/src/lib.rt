// Crossings of a region's edges with a curve, and the answers that the queries give of them. Upstream: the `Option` and `Vec` of `Polygon`'s
// `intersect_` methods in src/sph_geom/mod.rs.
#![tactic(auto)]

ghost use Rattle.std.specs.Prelude.{◌≡◌, Option, List, [], map, ◌<◌, ◌≤◌, ◌+◌, slice_set};
ghost use Rattle.std.specs.Iterator.{YieldsFirstBy, item_count};
ghost use Rattle.coo3d.specs.declared.UnitVect3.{UnitVect3};
ghost use Rattle.refusal.specs.Answer.{answered, refused_for, answer_of, outcome_of, and_then};
ghost use Rattle.region.specs.declared.Edge.{Edge};
ghost use Rattle.region.specs.View.{view_of};
ghost use Rattle.domain.specs.Checks.{with_count};
ghost use Rattle.crossings.specs.Crossings.{zeros, list_of, tested_of, first_answer, intersecting_of, given_from, given_of, all_crossings_of, first_crossing_of, Lists};

use coo3d::{Coo3D, UnitVect3, Vect3};
use refusal::Cause;
use region::Region;
use std::marker::Model;

// The first `len` points, in the order of their edges; the others are zero. An array beside its length, since there is no heap.
#[derive(Clone, Copy)]
pub struct Crossings {
    pub points: [UnitVect3; 64],
    pub len: usize,
}

impl Crossings {
    #[tactic(auto, unfolding(crate::specs::Crossings::zeros, crate::specs::Crossings::list_of))]
    fn none() -> Crossings
        ensures { result ≡ list_of [] }
    {
        Crossings {
            points: no_points(),
            len: 0,
        }
    }

    // Of a list with room: an edge gives one point at most, and there are 64.
    fn push(&mut self, point: UnitVect3)
        requires { self.old.len < 64 }
        ensures { self.new ≡ record { points = slice_set self.old.points self.old.len point; len = self.old.len + 1 } }
    {
        self.points[self.len] = point;
        self.len += 1;
    }
}

// The list is empty where the call is refused. A struct: a `Result` that holds the array is copied once more, and a refused call promises the empty list.
#[derive(Clone, Copy)]
pub struct AllAnswer {
    pub crossings: Crossings,
    pub outcome: Result<(), Cause>,
}

// What an edge may cross: an arc, a great circle, a parallel. The edge comes as three references, since an `Edge` is copied: by `Region::edges` the
// list at 64 corners took a twelfth more instructions for an arc, and a sixth more for a parallel.
pub trait Curve {
    ghost crossing_of: { Self → Edge → Option UnitVect3 };

    fn crossing(&self, from: &Coo3D, to: &Coo3D, normal: &Vect3) -> Option<UnitVect3>
        ensures { result ≡ crossing_of self.now (record { from = from.now; to = to.now; normal = normal.now }) };
}

pub fn no_points() -> [UnitVect3; 64]
    ensures { result ≡ zeros }
{
    [UnitVect3 {
        x: 0.0,
        y: 0.0,
        z: 0.0,
    }; 64]
}

pub fn refused(cause: Cause) -> AllAnswer
    ensures { Lists result (refused_for cause) }
{
    AllAnswer {
        crossings: Crossings::none(),
        outcome: Err(cause),
    }
}

pub fn test_finite(crossing: Option<UnitVect3>) -> Result<Option<UnitVect3>, Cause>
    ensures { answer_of result ≡ tested_of crossing }
{
    match crossing {
        Some(p) => {
            if p.is_finite() {
                Ok(crossing)
            } else {
                Err(Cause::NotFinite)
            }
        }
        None => Ok(crossing),
    }
}

// Yes exactly where the first answer is a point; its refusal is passed on.
pub fn is_intersecting(first: Result<Option<UnitVect3>, Cause>) -> Result<bool, Cause>
    ensures { answer_of result ≡ intersecting_of (first_answer first) }
{
    Ok(first?.is_some())
}

// What a region's edges that are left give for a curve, a crossing or none each, in order: the next edge runs from corner `before` to corner `i`.
#[derive(Drop)]
struct Passing<'a, C: Curve + Drop> {
    r: &'a Region,
    curve: C,
    before: usize,
    i: usize,
}

impl<'a, C: Curve + Drop> Model for Passing<'a, C> {
    ghost Value = { List (Option UnitVect3) };

    ghost view = { λ s. given_from (C.crossing_of s.curve) s.r.now s.before s.i };

    ghost invariant = { λ s. (s.before < 64) × (s.r.now.count ≤ 64) };
}

impl<'a, C: Curve + Drop> Passing<'a, C> {
    // The count is tested, then the curve.
    #[inline(always)]
    fn new(r: &'a Region, curve: Result<C, Cause>) -> Result<Passing<'a, C>, Cause>
        ensures { answer_of result ≡ given_of C.crossing_of (view_of r.now) curve }
    {
        let count = r.count;
        domain::check_count(count)?;
        let curve = curve?;
        let before = count - 1;
        // A read that tells the proof how long the array is, and that costs nothing.
        let _last = &r.vertices[before];
        Ok(Passing {
            r,
            curve,
            before,
            i: 0,
        })
    }
}

// Each crossing is tested.
impl<'a, C: Curve + Drop> Iterator for Passing<'a, C> {
    type Item = Result<Option<UnitVect3>, Cause>;

    ghost next_gives = { YieldsFirstBy answer_of (map tested_of) };

    ghost remaining = { item_count (λ cs. cs) };

    #[inline(always)]
    fn next(&mut self) -> Option<Result<Option<UnitVect3>, Cause>> {
        let r = self.r;
        let i = self.i;
        if i < r.count {
            let crossing = self.curve.crossing(
                &r.vertices[self.before],
                &r.vertices[i],
                &r.cross_products[i],
            );
            self.before = i;
            self.i = i + 1;
            Some(test_finite(crossing))
        } else {
            None
        }
    }
}

// The first edge with a crossing decides.
pub fn first_crossing<C: Curve + Drop>(
    r: &Region,
    curve: Result<C, Cause>,
) -> Result<Option<UnitVect3>, Cause>
    ensures { first_answer result ≡ first_crossing_of C.crossing_of (view_of r.now) curve }
{
    for crossing in Passing::new(r, curve)? {
        if let Some(point) = crossing? {
            return Ok(Some(point));
        }
    }
    Ok(None)
}

fn collect<C: Curve + Drop>(
    r: &Region,
    curve: Result<C, Cause>,
    found: &mut Crossings,
) -> Result<(), Cause>
    requires { found.old ≡ list_of [] }
    ensures { outcome_of result found.new ≡ and_then (all_crossings_of C.crossing_of (view_of r.now) curve) (λ ps. answered (list_of ps)) }
{
    for crossing in Passing::new(r, curve)? {
        if let Some(point) = crossing? {
            found.push(point);
        }
    }
    Ok(())
}

#[tactic(auto, using(crate::proofs::Gather::lists_done, crate::proofs::Gather::lists_refused))]
pub fn all_crossings<C: Curve + Drop>(r: &Region, curve: Result<C, Cause>) -> AllAnswer
    ensures { Lists result (all_crossings_of C.crossing_of (view_of r.now) curve) }
{
    let mut found = Crossings::none();
    match collect(r, curve, &mut found) {
        Ok(()) => AllAnswer {
            crossings: found,
            outcome: Ok(()),
        },
        Err(cause) => refused(cause),
    }
}

// The curve, once the count was tested.
fn counted<C: Drop>(count: usize, curve: Result<C, Cause>) -> Result<C, Cause>
    ensures { answer_of result ≡ with_count count (answer_of curve) }
{
    domain::check_count(count)?;
    curve
}

// `first_crossing` of a region by value. A reference to one copies it first: the copy is made once nothing refuses, so that a refusal costs none. The same in
// `all_crossings_in`.
pub fn first_crossing_in<C: Curve + Drop>(
    r: Region,
    curve: Result<C, Cause>,
) -> Result<Option<UnitVect3>, Cause>
    ensures { first_answer result ≡ first_crossing_of C.crossing_of (view_of r) curve }
{
    let taken = counted(r.count, curve)?;
    let held = r;
    first_crossing(&held, Ok(taken))
}

pub fn all_crossings_in<C: Curve + Drop>(r: Region, curve: Result<C, Cause>) -> AllAnswer
    ensures { Lists result (all_crossings_of C.crossing_of (view_of r) curve) }
{
    match counted(r.count, curve) {
        Ok(taken) => {
            let held = r;
            all_crossings(&held, Ok(taken))
        }
        Err(cause) => refused(cause),
    }
}
