// Where a region's edges cross a great circle, or an arc of one. Upstream: `Polygon`'s `intersect_great_circle_` methods in src/sph_geom/mod.rs.
#![tactic(auto)]

ghost use Rattle.std.specs.Prelude.{◌≡◌, cond};
ghost use Rattle.std.specs.Float.Ieee.{lt};
ghost use Rattle.coo3d.specs.Vectors.{vect_of_point, dot_of};
ghost use Rattle.refusal.specs.Answer.{answer_of};
ghost use Rattle.region.specs.View.{view_of};
ghost use Rattle.crossings.specs.Crossings.{first_answer, Lists};
ghost use Rattle.great_circles.specs.Arcs.{west_of, east_of, overlap_in_lon, intersect_point, in_edge, arc_crossing};
ghost use Rattle.great_circles.specs.Circles.{is_beyond, circle_crossing};
ghost use Rattle.great_circles.specs.Queries.{arc_at, circle_at, arc_first_of, arc_all_of, is_intersecting_arc, circle_all_of};

use coo3d::{Coo3D, UnitVect3, Vect3};
use crossings::{AllAnswer, Curve};
use refusal::Cause;
use region::Region;

// An arc, by its ends.
#[derive(Clone, Copy)]
struct Arc {
    west: Coo3D,
    east: Coo3D,
}

// A great circle, by its normal.
#[derive(Clone, Copy)]
struct GreatCircle {
    n: Vect3,
}

// Two points by longitude.
#[tactic(auto, unfolding(crate::specs::Arcs::west_of, crate::specs::Arcs::east_of))]
fn by_longitude(a: Coo3D, b: Coo3D) -> Arc
    ensures { result ≡ record { west = west_of a b; east = east_of a b } }
{
    if a.lon > b.lon {
        Arc { west: b, east: a }
    } else {
        Arc { west: a, east: b }
    }
}

// Two longitudes, the lower one first.
fn in_order(a: f64, b: f64) -> (f64, f64)
    ensures { result ≡ (cond (lt b a) b a, cond (lt b a) a b) }
{
    if a > b { (b, a) } else { (a, b) }
}

// `great_circle_arcs_are_overlapping_in_lon`, by the longitudes of two arcs, the lower one of each first.
fn are_overlapping_in_lon(a: f64, b: f64, pa: f64, pb: f64) -> bool
    ensures { result ≡ overlap_in_lon a b pa pb }
{
    if b - a < float::PI {
        if pb - pa <= float::PI {
            (pb >= a) & (pa <= b)
        } else {
            (pb <= b) | (pa >= a)
        }
    } else if pb - pa <= float::PI {
        (pb >= b) | (pa <= a)
    } else {
        true
    }
}

// The point, where it lies on the edge between pa and pb or opposite to it.
#[tactic(auto, unfolding(crate::specs::Arcs::in_edge))]
fn in_edge(i: UnitVect3, pa: Coo3D, pb: Coo3D) -> Option<UnitVect3>
    ensures { result ≡ in_edge i pa pb }
{
    let papb = coo3d::dot_product(pa, pb);
    if (float::abs(coo3d::dot_product(pa, i)) > papb)
        & (float::abs(coo3d::dot_product(pb, i)) > papb)
    {
        Some(i)
    } else {
        None
    }
}

// Whether both ends of the edge are nearer to the point than to each other.
#[tactic(auto, unfolding(crate::specs::Circles::is_beyond))]
fn is_beyond(i: UnitVect3, pa: Coo3D, pb: Coo3D, papb: f64) -> bool
    requires { papb ≡ dot_of (vect_of_point pa) (vect_of_point pb) }
    ensures { result ≡ is_beyond i (vect_of_point pa) (vect_of_point pb) }
{
    (coo3d::dot_product(pa, i) > papb) & (coo3d::dot_product(pb, i) > papb)
}

impl Arc {
    fn new(a: Coo3D, b: Coo3D) -> Result<Arc, Cause>
        ensures { answer_of result ≡ arc_at a b }
    {
        let p = domain::check_point(a, 0)?;
        let q = domain::check_point(b, 1)?;
        Ok(by_longitude(p, q))
    }

    // `normalized_intersect_point`, by the heights of the arc's ends over the edge's plane.
    fn intersect_point(&self, ua: f64, ub: f64) -> UnitVect3
        ensures { result ≡ intersect_point self.now.west self.now.east ua ub }
    {
        let a = self.west;
        let b = self.east;
        let v = Vect3 {
            x: ub * a.x - ua * b.x,
            y: ub * a.y - ua * b.y,
            z: ub * a.z - ua * b.z,
        };
        v.normalized()
    }
}

impl Curve for Arc {
    ghost crossing_of = { λ arc e. arc_crossing arc.west arc.east e };

    // The edge's ends count in either order. Inlined into the loops, which else call it for each edge.
    #[inline(always)]
    #[tactic(auto, using(crate::proofs::Numbers::apart, crate::proofs::Numbers::one_side, crate::proofs::Numbers::crossed))]
    fn crossing(&self, from: &Coo3D, to: &Coo3D, normal: &Vect3) -> Option<UnitVect3> {
        let (lower, higher) = in_order(from.lon, to.lon);
        if are_overlapping_in_lon(self.west.lon, self.east.lon, lower, higher) {
            let ua = coo3d::dot_product(self.west, *normal);
            let ub = coo3d::dot_product(self.east, *normal);
            if (ua > 0.0) != (ub > 0.0) {
                return in_edge(self.intersect_point(ua, ub), *from, *to);
            }
        }
        None
    }
}

impl GreatCircle {
    fn new(n: Vect3) -> Result<GreatCircle, Cause>
        ensures { answer_of result ≡ circle_at n }
    {
        let m = domain::check_vector(n, 0)?;
        Ok(GreatCircle { n: m })
    }
}

impl Curve for GreatCircle {
    ghost crossing_of = { λ circle e. circle_crossing circle.n e };

    fn crossing(&self, from: &Coo3D, to: &Coo3D, normal: &Vect3) -> Option<UnitVect3> {
        let papb = coo3d::dot_product(*from, *to);
        let v = coo3d::cross_product(*normal, self.n);
        let i = v.normalized();
        if is_beyond(i, *from, *to, papb) {
            return Some(i);
        }
        let o = i.opposite();
        if is_beyond(o, *from, *to, papb) {
            Some(o)
        } else {
            None
        }
    }
}

pub fn intersect_great_circle_arc(r: Region, a: Coo3D, b: Coo3D) -> Result<Option<UnitVect3>, Cause>
    ensures { first_answer result ≡ arc_first_of (view_of r) a b }
{
    crossings::first_crossing_in(r, Arc::new(a, b))
}

pub fn intersect_great_circle_arc_all(r: Region, a: Coo3D, b: Coo3D) -> AllAnswer
    ensures { Lists result (arc_all_of (view_of r) a b) }
{
    crossings::all_crossings_in(r, Arc::new(a, b))
}

pub fn is_intersecting_great_circle_arc(r: Region, a: Coo3D, b: Coo3D) -> Result<bool, Cause>
    ensures { answer_of result ≡ is_intersecting_arc (view_of r) a b }
{
    crossings::is_intersecting(intersect_great_circle_arc(r, a, b))
}

// The great circle of the normal n.
#[tactic(auto, unfolding(crate::specs::Queries::circle_all_of))]
pub fn intersect_great_circle_all(r: Region, n: Vect3) -> AllAnswer
    ensures { Lists result (circle_all_of (view_of r) n) }
{
    crossings::all_crossings_in(r, GreatCircle::new(n))
}
