// What containment costs: how many edges are in range at a point, and an outline that has as many as can be. Upstream has neither.
#![tactic(auto)]

ghost use Rattle.std.specs.Prelude.{◌≡◌, ◌<◌, ◌≤◌, OnOk};
ghost use Rattle.domain.specs.Checks.{point_at, with_count};
ghost use Rattle.refusal.specs.Answer.{refused_for, answer_of};
ghost use Rattle.region.specs.View.{view_of};
ghost use Rattle.cost.specs.RangeCount.{Ranged};
ghost use Rattle.cost.specs.Outline.{tooth, saw, abreast, Outlines};

use coo3d::Coo3D;
use refusal::Cause;
use region::{Built, Region};

const DEGREE: f64 = 0.017453292519943295;

const COS_DEGREE: f64 = 0.9998476951563913;

const SIN_DEGREE: f64 = 0.01745240643728351;

// 60 degrees and 120 degrees.
const WEST: f64 = 1.0471975511965976;

const EAST: f64 = 2.0943951023931953;

const SIN_60: f64 = 0.8660254037844386;

// The decision of `region::contains`, and how many edges were in range: beside the decision, since a refusal too has its number, 0.
#[derive(Clone, Copy)]
pub struct RangedDecision {
    pub decision: Result<bool, Cause>,
    pub in_range: usize,
}

// The outline or a refusal, and its point, which stands beside a refusal too.
#[derive(Clone, Copy)]
pub struct CostliestOutline {
    pub built: Built,
    pub point: Coo3D,
}

fn refused(cause: Cause) -> RangedDecision
    ensures { (answer_of result.decision ≡ refused_for cause) × (result.in_range ≡ 0) }
{
    RangedDecision {
        decision: Err(cause),
        in_range: 0,
    }
}

// The point to be asked of, after the tests of `region::contains`.
fn checked(count: usize, coo: Coo3D) -> Result<Coo3D, Cause>
    ensures answer { answer_of result ≡ with_count count (point_at 0 coo) }
    ensures few { OnOk result ((0 < count) × (count ≤ 64)) }
{
    domain::check_count(count)?;
    domain::check_point(coo, 0)
}

// `region::contains`, and how many edges were in range.
// With the number added to outside the branch, 64 corners take a tenth more instructions; by `Edge::is_counted`, three tenths more.
pub fn contains_with_range_count(r: Region, coo: Coo3D) -> RangedDecision
    ensures { Ranged result (view_of r) coo }
{
    let p = match checked(r.count, coo) {
        Ok(p) => p,
        Err(cause) => return refused(cause),
    };
    // A reference to the region copies it: here, once nothing refuses.
    let held = r;
    let mut is_inside = held.contains_south_pole;
    let mut in_range: usize = 0;
    for edge in held.edges() {
        if edge.is_in_range(p) {
            in_range += 1;
            is_inside = is_inside != (coo3d::dot_product(p, edge.normal) > 0.0);
        }
    }
    RangedDecision {
        decision: Ok(is_inside),
        in_range,
    }
}

// A corner on one of the two meridians, at a latitude of this cosine and sine.
fn tooth(is_east: bool, lat: f64, c: f64, s: f64) -> Coo3D
    ensures { result ≡ tooth is_east lat c s }
{
    let (cos_lon, lon) = if is_east { (-0.5, EAST) } else { (0.5, WEST) };
    Coo3D {
        x: c * cos_lon,
        y: c * SIN_60,
        z: s,
        lon,
        lat,
    }
}

// The corners of the outline of 64. A shorter one has the first of them.
fn saw() -> [Coo3D; 64]
    ensures { result ≡ saw }
{
    let mut corners = [Coo3D {
        x: 1.0,
        y: 0.0,
        z: 0.0,
        lon: 0.0,
        lat: 0.0,
    }; 64];
    let mut is_east = true;
    let mut lat = DEGREE;
    let mut c = COS_DEGREE;
    let mut s = SIN_DEGREE;
    for i in 1..64 {
        corners[i] = tooth(is_east, lat, c, s);
        let turned = c * COS_DEGREE - s * SIN_DEGREE;
        s = s * COS_DEGREE + c * SIN_DEGREE;
        c = turned;
        lat = lat + DEGREE;
        is_east = !is_east;
    }
    corners
}

// A point between the two meridians.
fn abreast() -> Coo3D
    ensures { result ≡ abreast }
{
    Coo3D {
        x: 0.22185122226082596,
        y: 0.8279600331986582,
        z: 0.5150380749100542,
        lon: 1.3089969389957472,
        lat: 0.5410520681182421,
    }
}

// An outline of so many corners, and a point at which all its edges are in range, or all but one where the count is odd. 0 corners and more than 64 are refused.
pub fn costliest_outline(count: usize) -> CostliestOutline
    ensures { Outlines result count }
{
    let corners = saw();
    let built = region::build_flagged(corners, count, false);
    let point = abreast();
    CostliestOutline { built, point }
}
