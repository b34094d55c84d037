// The bounding cone of some points. Upstream: src/sph_geom/cone.rs, `Cone::bounding_cone`.
#![tactic(auto)]

ghost use Rattle.std.specs.Prelude.{◌≡◌};
ghost use Rattle.refusal.specs.Answer.{answer_of};
ghost use Rattle.cone.specs.Cone.{bounding_cone_of, gravity_center, center_of, d2_max_of};

use coo3d::{Coo3D, UnitVect3, Vect3};
use refusal::Cause;

// A centre, and the largest squared chord from it to a point: upstream's radius is 2 asin(sqrt(d2_max) / 2).
#[derive(Clone, Copy)]
pub struct Cone {
    pub center: UnitVect3,
    pub d2_max: f64,
}

// The sum of the points, as vectors.
fn gravity_center(points: &[Coo3D]) -> Vect3
    ensures { result ≡ gravity_center points.now }
{
    let mut sum = Vect3::zero();
    for p in points {
        sum = Vect3 {
            x: sum.x + p.x,
            y: sum.y + p.y,
            z: sum.z + p.z,
        };
    }
    sum
}

// The direction of a sum of points. `Vect3::normalized` has not the same operations: as upstream's, `UnitVect3::new` may scale once more.
fn center_of(sum: Vect3) -> UnitVect3
    ensures { result ≡ center_of sum }
{
    let norm = sum.norm();
    UnitVect3::new(sum.x / norm, sum.y / norm, sum.z / norm)
}

fn d2_max(center: UnitVect3, points: &[Coo3D]) -> f64
    ensures { result ≡ d2_max_of center points.now }
{
    // The distance is a method of plain vectors alone.
    let c = center.to_vect3();
    let mut d2 = 0.0;
    for p in points {
        d2 = float::max(d2, c.squared_euclidean_dist(*p));
    }
    d2
}

// Not the smallest cone, but one that holds the first `count` points, of which there are 1 to 64: an array beside a count, since there is no heap.
pub fn bounding_cone(points: [Coo3D; 64], count: usize) -> Result<Cone, Cause>
    ensures { answer_of result ≡ bounding_cone_of points count }
{
    let checked = domain::check_points(points, count);
    checked.outcome?;
    let ps = &checked.points[..count];
    let center = center_of(gravity_center(ps));
    if !center.is_finite() {
        return Err(Cause::NotFinite);
    }
    Ok(Cone {
        center,
        d2_max: d2_max(center, ps),
    })
}
