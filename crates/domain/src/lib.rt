// Which points and vectors a call takes. Upstream takes any.
#![tactic(auto)]

ghost use Rattle.std.specs.Prelude.{◌≡◌, not, [], ◌∷◌, ◌<◌, ◌≤◌, OnOk};
ghost use Rattle.refusal.specs.Answer.{answered, refuse_if, answer_of};
ghost use Rattle.domain.specs.Domain.{in_domain, vector_in_domain};
ghost use Rattle.domain.specs.Checks.{point_at, vector_at, with_count, PointsChecked};

use coo3d::{Coo3D, Vect3};
use refusal::Cause;

// The points that were checked are the first `count` of `points`, and the others are free. A refusal leaves all as they were given.
// A struct and no `Result`, since the points are promised beside a refusal too, and a `Result` that holds the array is copied once more.
#[derive(Clone, Copy)]
pub struct PointsCheck {
    pub points: [Coo3D; 64],
    pub outcome: Result<(), Cause>,
}

fn in_domain(p: Coo3D) -> bool
    ensures { result ≡ in_domain p }
{
    float::within(-2.0, p.x, 2.0)
        & float::within(-2.0, p.y, 2.0)
        & float::within(-2.0, p.z, 2.0)
        & float::within(0.0, p.lon, float::TWO_PI)
        & float::within(-float::HALF_PI, p.lat, float::HALF_PI)
}

fn vector_in_domain(v: Vect3) -> bool
    ensures { result ≡ vector_in_domain v }
{
    float::within(-2.0, v.x, 2.0) & float::within(-2.0, v.y, 2.0) & float::within(-2.0, v.z, 2.0)
}

// A value of its domain, or a refusal with the index.
fn if_inside<T: Drop>(value: T, is_inside: bool, index: usize) -> Result<T, Cause>
    ensures { answer_of result ≡ refuse_if (not is_inside) 1 (index ∷ []) (answered value) }
{
    if is_inside {
        Ok(value)
    } else {
        Err(Cause::OutsideDomain(index))
    }
}

// The point, or a refusal with the index that the caller numbers it by. Callers go on with the point that is handed back.
pub fn check_point(p: Coo3D, index: usize) -> Result<Coo3D, Cause>
    ensures { answer_of result ≡ point_at index p }
{
    if_inside(p, in_domain(p), index)
}

pub fn check_vector(v: Vect3, index: usize) -> Result<Vect3, Cause>
    ensures { answer_of result ≡ vector_at index v }
{
    if_inside(v, vector_in_domain(v), index)
}

// The number of a region's corners, or of points.
pub fn check_count(count: usize) -> Result<(), Cause>
    ensures answer { answer_of result ≡ with_count count (answered tt) }
    ensures few { OnOk result ((0 < count) × (count ≤ 64)) }
{
    if count == 0 {
        return Err(Cause::NoPoint);
    }
    if count > 64 {
        return Err(Cause::TooManyPoints);
    }
    Ok(())
}

// The first `count` points, of which there are 1 to 64, each checked and numbered from 0: an array beside a count, since there is no heap.
pub fn check_points(points: [Coo3D; 64], count: usize) -> PointsCheck
    ensures { PointsChecked points count result }
{
    if let Err(cause) = check_count(count) {
        return PointsCheck {
            points,
            outcome: Err(cause),
        };
    }
    let mut out = points;
    for i in 0..count {
        match check_point(points[i], i) {
            Ok(p) => out[i] = p,
            Err(cause) => {
                return PointsCheck {
                    points,
                    outcome: Err(cause),
                };
            }
        }
    }
    PointsCheck {
        points: out,
        outcome: Ok(()),
    }
}
