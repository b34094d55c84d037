// Where a region's edges cross a parallel. Upstream: `Polygon`'s `intersect_parallel` methods in src/sph_geom/mod.rs, whose cases A and B keep
// their names. The caller gives the latitude with its sine and cosine.
#![tactic(auto)]

ghost use Rattle.std.specs.Prelude.{◌≡◌};
ghost use Rattle.refusal.specs.Answer.{answer_of};
ghost use Rattle.region.specs.View.{view_of};
ghost use Rattle.crossings.specs.Crossings.{first_answer, Lists};
ghost use Rattle.parallels.specs.Parallels.{is_parallel, south_of, north_of, spans_lat, straddles, point_at_y, either_of, second_degree, case_a, case_b, point_of, parallel_crossing};
ghost use Rattle.parallels.specs.Queries.{parallel_at, first_fit_of, parallel_first_of, parallel_all_of, is_intersecting_parallel};

use coo3d::{Coo3D, UnitVect3, Vect3};
use crossings::{AllAnswer, Curve};
use refusal::Cause;
use region::Region;

// Of three numbers as a caller gives them: a `Parallel` is one that was checked.
fn is_parallel(lat: f64, sin: f64, cos: f64) -> bool
    ensures { result ≡ is_parallel lat sin cos }
{
    float::within(-float::HALF_PI, lat, float::HALF_PI)
        & float::within(-1.0, sin, 1.0)
        & float::within(-1.0, cos, 1.0)
}

// Two points by latitude, the southern one first.
#[tactic(auto, unfolding(crate::specs::Parallels::south_of, crate::specs::Parallels::north_of))]
fn by_latitude(a: Coo3D, b: Coo3D) -> (Coo3D, Coo3D)
    ensures { result ≡ (south_of a b, north_of a b) }
{
    if a.lat > b.lat { (b, a) } else { (a, b) }
}

// Whether the edge's latitudes fit: from the lower one up to, but not at, the higher. Most edges have both ends on one side, and need no more.
#[tactic(auto, using(crate::proofs::Sides::one_side, crate::proofs::Sides::alike), unfolding(crate::specs::Parallels::spans_lat))]
fn spans_lat(from: &Coo3D, to: &Coo3D, lat: f64) -> bool
    ensures { result ≡ spans_lat from.now to.now lat }
{
    if (from.lat <= lat) != (to.lat <= lat) {
        let (south, north) = by_latitude(*from, *to);
        float::within_half_open(south.lat, lat, north.lat)
    } else {
        false
    }
}

// Whether p lies between pa and pb on their great circle.
#[tactic(auto, unfolding(crate::specs::Parallels::straddles))]
fn is_between(p: UnitVect3, pa: Coo3D, pb: Coo3D) -> bool
    ensures { result ≡ straddles p pa pb }
{
    let to_a = coo3d::cross_product(p, pa);
    let to_b = coo3d::cross_product(p, pb);
    coo3d::dot_product(to_a, to_b) < 0.0
}

// The point of the great circle of normal n at y and z, where n.x is not 0.
#[tactic(auto, unfolding(crate::specs::Parallels::point_at_y))]
fn point_at_y(n: Vect3, y: f64, z: f64) -> UnitVect3
    ensures { result ≡ point_at_y n y z }
{
    UnitVect3 {
        x: -(n.y * y + n.z * z) / n.x,
        y,
        z,
    }
}

// p where it lies on the edge, and else q.
#[tactic(auto, unfolding(crate::specs::Parallels::either_of))]
fn either(p: UnitVect3, q: UnitVect3, pa: Coo3D, pb: Coo3D) -> Option<UnitVect3>
    ensures { result ≡ either_of p q pa pb }
{
    if is_between(p, pa, pb) {
        Some(p)
    } else {
        Some(q)
    }
}

// Cases A.1 and A.2, and no real solution: y by an equation of the second degree, whose numbers case A has worked out. As `either`, but the second point
// is worked out only where the first does not lie on the edge.
fn second_degree(
    pa: Coo3D,
    pb: Coo3D,
    n: Vect3,
    z: f64,
    two_a: f64,
    b: f64,
    delta: f64,
) -> Option<UnitVect3>
    ensures { result ≡ second_degree pa pb n z two_a b delta }
{
    if delta > 0.0 {
        let delta_root_sq = root::sqrt(delta);
        let p1 = point_at_y(n, (-b - delta_root_sq) / two_a, z);
        if is_between(p1, pa, pb) {
            Some(p1)
        } else {
            Some(point_at_y(n, (-b + delta_root_sq) / two_a, z))
        }
    } else if delta == 0.0 {
        Some(point_at_y(n, -b / two_a, z))
    } else {
        None
    }
}

// A latitude with its sine and cosine.
#[derive(Clone, Copy)]
struct Parallel {
    lat: f64,
    sin: f64,
    cos: f64,
}

impl Parallel {
    fn new(lat: f64, sin: f64, cos: f64) -> Result<Parallel, Cause>
        ensures { answer_of result ≡ parallel_at lat sin cos }
    {
        if is_parallel(lat, sin, cos) {
            Ok(Parallel { lat, sin, cos })
        } else {
            Err(Cause::NoSuchParallel)
        }
    }

    // Case A: n.x is not 0.
    #[tactic(auto, unfolding(crate::specs::Parallels::case_a))]
    fn case_a(&self, pa: Coo3D, pb: Coo3D, n: Vect3) -> Option<UnitVect3>
        ensures { result ≡ case_a pa pb n self.now.sin self.now.cos }
    {
        let z = self.sin;
        let xn2 = n.x * n.x;
        let two_a = 2.0 * ((n.y * n.y) / xn2 + 1.0);
        let b = 2.0 * n.y * n.z * z / xn2;
        let c = (n.z * n.z) * (z * z) / xn2 - self.cos * self.cos;
        second_degree(pa, pb, n, z, two_a, b, b * b - 2.0 * two_a * c)
    }

    // Case B: n.x is 0.
    #[tactic(auto, unfolding(crate::specs::Parallels::case_b))]
    fn case_b(&self, pa: Coo3D, pb: Coo3D, n: Vect3) -> Option<UnitVect3>
        ensures { result ≡ case_b pa pb n self.now.sin self.now.cos }
    {
        let z = self.sin;
        if n.y == 0.0 {
            if (z == 0.0) & (z == pa.z) {
                Some(UnitVect3 {
                    x: pa.x,
                    y: pa.y,
                    z: pa.z,
                })
            } else {
                None
            }
        } else {
            let x = root::sqrt(self.cos * self.cos - (n.z * n.z) * (z * z) / (n.y * n.y));
            let y = -n.z * z / n.y;
            either(UnitVect3 { x, y, z }, UnitVect3 { x: -x, y, z }, pa, pb)
        }
    }

    // The crossing of an edge whose latitudes fit. The edge comes in its parts: an `Edge` would be copied, and a list took up to a thirtieth more
    // instructions by it. Case B also takes the ends in another order.
    fn point_of(&self, from: Coo3D, to: Coo3D, n: Vect3) -> Option<UnitVect3>
        ensures { result ≡ point_of (record { from = from; to = to; normal = n }) self.now.sin self.now.cos }
    {
        // Case A does not ask which end is the southern one.
        if n.x != 0.0 {
            self.case_a(from, to, n)
        } else {
            let (pa, pb) = by_latitude(from, to);
            self.case_b(pa, pb, n)
        }
    }
}

impl Curve for Parallel {
    ghost crossing_of = { λ p e. parallel_crossing p.lat p.sin p.cos e };

    // Inlined into the loops: else a list at 64 corners takes a twelfth more instructions.
    #[inline(always)]
    #[tactic(auto, unfolding(crate::specs::Parallels::parallel_crossing))]
    fn crossing(&self, from: &Coo3D, to: &Coo3D, normal: &Vect3) -> Option<UnitVect3> {
        if spans_lat(from, to, self.lat) {
            self.point_of(*from, *to, *normal)
        } else {
            None
        }
    }
}

// The first edge whose latitudes fit decides. So this is not `crossings::first_crossing`, which goes on past one that gives no point.
fn first_fit(r: &Region, parallel: Result<Parallel, Cause>) -> Result<Option<UnitVect3>, Cause>
    ensures { first_answer result ≡ first_fit_of (view_of r.now) parallel }
{
    let count = r.count;
    domain::check_count(count)?;
    let parallel = parallel?;
    let mut before = count - 1;
    // The side of an edge's start is kept from the edge before it: a comparison of both ends for each edge costs a tenth more.
    let mut from_below = r.vertices[before].lat <= parallel.lat;
    for i in 0..count {
        let from = &r.vertices[before];
        let to = &r.vertices[i];
        let to_below = to.lat <= parallel.lat;
        if from_below != to_below {
            if spans_lat(from, to, parallel.lat) {
                return crossings::test_finite(parallel.point_of(*from, *to, r.cross_products[i]));
            }
            from_below = to_below;
        }
        before = i;
    }
    Ok(None)
}

// `first_fit` of a region by value, which is copied once nothing refuses, as in `crossings::first_crossing_in`.
fn first_fit_in(r: Region, parallel: Result<Parallel, Cause>) -> Result<Option<UnitVect3>, Cause>
    ensures { first_answer result ≡ first_fit_of (view_of r) parallel }
{
    domain::check_count(r.count)?;
    let taken = parallel?;
    let held = r;
    first_fit(&held, Ok(taken))
}

pub fn intersect_parallel(
    r: Region,
    lat: f64,
    lat_sin: f64,
    lat_cos: f64,
) -> Result<Option<UnitVect3>, Cause>
    ensures { first_answer result ≡ parallel_first_of (view_of r) lat lat_sin lat_cos }
{
    first_fit_in(r, Parallel::new(lat, lat_sin, lat_cos))
}

pub fn intersect_parallel_all(r: Region, lat: f64, lat_sin: f64, lat_cos: f64) -> AllAnswer
    ensures { Lists result (parallel_all_of (view_of r) lat lat_sin lat_cos) }
{
    crossings::all_crossings_in(r, Parallel::new(lat, lat_sin, lat_cos))
}

pub fn is_intersecting_parallel(
    r: Region,
    lat: f64,
    lat_sin: f64,
    lat_cos: f64,
) -> Result<bool, Cause>
    ensures { answer_of result ≡ is_intersecting_parallel (view_of r) lat lat_sin lat_cos }
{
    crossings::is_intersecting(intersect_parallel(r, lat, lat_sin, lat_cos))
}
