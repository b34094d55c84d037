// Regions: polygons on the sphere with a pole flag, how they are built, and which points they contain. Upstream: `Polygon` in src/sph_geom/mod.rs.
#![tactic(auto)]

ghost use Rattle.std.specs.Prelude.{◌≡◌, false, ◌≤◌, ◌<◌, length, take, OnErr};
ghost use Rattle.std.specs.Iterator.{YieldsFirst, item_count};
ghost use Rattle.refusal.specs.Answer.{answered, refused_for, answer_of, outcome_of};
ghost use Rattle.domain.specs.Checks.{point_at};
ghost use Rattle.region.specs.Edges.{edge, normal_of, in_lon_range, crosses_seam, is_in_range, is_counted};
ghost use Rattle.region.specs.View.{view_of, empty, made, odd_at, edges_of, edges_ahead};
ghost use Rattle.region.specs.Region.{contains_of, seam_count_of, rule_at, flag_of, drawn_of, build_of, Builds};
ghost use Rattle.region.specs.Poles.{step_of, basic_of, rule_flag, fixed_rule};

use coo3d::{Coo3D, Vect3};
use refusal::Cause;

// The first `count` entries of the two arrays are the corners, and each edge's normal; the others are free. Edge i runs from corner i - 1 to
// corner i, edge 0 from the last corner. A value handed in counts as its fields are. Arrays beside a count, since there is no heap; two of them, and
// not one of edges, since an edge's two ends would stand in it twice.
#[derive(Clone, Copy)]
pub struct Region {
    pub vertices: [Coo3D; 64],
    pub cross_products: [Vect3; 64],
    pub count: usize,
    pub contains_south_pole: bool,
    // How many edges cross the seam.
    pub seam_count: usize,
}

// From corner to corner, and the normal of the two.
#[derive(Clone, Copy)]
pub struct Edge {
    pub from: Coo3D,
    pub to: Coo3D,
    pub normal: Vect3,
}

// The edges that are left of a region's: each corner ends one, and `from` is where the next one starts.
#[derive(Clone, Copy)]
pub struct EdgeIter<'a> {
    from: Coo3D,
    corners: &'a [Coo3D],
    normals: &'a [Vect3],
}

// The rule that sets the flag.
#[derive(Clone, Copy)]
pub enum ContainsSouthPoleMethod {
    Default,
    DefaultComplement,
    ContainsSouthPole,
    DoNotContainsSouthPole,
    ControlPointIn(Coo3D),
    ControlPointOut(Coo3D),
}

// Beside a refusal stands the empty region. A `Result` that holds a region would be copied once more, and a refused build promises that region.
#[derive(Clone, Copy)]
pub struct Built {
    pub region: Region,
    pub outcome: Result<(), Cause>,
}

// The edge's normal, turned north.
pub fn edge_normal(from: Coo3D, to: Coo3D) -> Vect3
    ensures { result ≡ normal_of from to }
{
    let v = coo3d::cross_product(from, to);
    if v.z < 0.0 { v.opposite() } else { v }
}

pub fn is_in_lon_range(coo: Coo3D, v1: Coo3D, v2: Coo3D) -> bool
    ensures { result ≡ in_lon_range coo.lon v1.lon v2.lon }
{
    let dlon = v2.lon - v1.lon;
    if dlon < 0.0 {
        (dlon >= -float::PI) == float::within_half_open(v2.lon, coo.lon, v1.lon)
    } else {
        (dlon <= float::PI) == float::within_half_open(v1.lon, coo.lon, v2.lon)
    }
}

// Whether the edge's absolute longitude step exceeds PI. The larger of the step and its opposite is that, but for the sign of a 0.
pub fn crosses_seam(from: Coo3D, to: Coo3D) -> bool
    ensures { result ≡ crosses_seam from.lon to.lon }
{
    let step = to.lon - from.lon;
    float::max(step, -step) > float::PI
}

// Whether the edge is in range at the point, and the point north of its plane. The edge comes as three values: a call of the manual.
pub fn is_counted(coo: Coo3D, from: Coo3D, to: Coo3D, normal: Vect3) -> bool
    ensures { result ≡ is_counted coo (record { from = from; to = to; normal = normal }) }
{
    is_in_lon_range(coo, from, to) & (coo3d::dot_product(coo, normal) > 0.0)
}

impl Edge {
    // The edge of two corners, with its normal.
    pub fn new(from: Coo3D, to: Coo3D) -> Edge
        ensures { result ≡ edge from to }
    {
        Edge {
            from,
            to,
            normal: edge_normal(from, to),
        }
    }

    pub fn crosses_seam(self) -> bool
        ensures { result ≡ crosses_seam self.from.lon self.to.lon }
    {
        crosses_seam(self.from, self.to)
    }

    pub fn is_in_range(self, p: Coo3D) -> bool
        ensures { result ≡ is_in_range p self }
    {
        is_in_lon_range(p, self.from, self.to)
    }

    pub fn is_counted(self, p: Coo3D) -> bool
        ensures { result ≡ is_counted p self }
    {
        is_counted(p, self.from, self.to, self.normal)
    }
}

impl<'a> Iterator for EdgeIter<'a> {
    type Item = Edge;

    ghost next_gives = { YieldsFirst edges_ahead };

    ghost remaining = { item_count edges_ahead };

    fn next(&mut self) -> Option<Edge> {
        let (to, corners) = self.corners.split_first()?;
        let (normal, normals) = self.normals.split_first()?;
        let edge = Edge {
            from: self.from,
            to: *to,
            normal: *normal,
        };
        self.from = *to;
        self.corners = corners;
        self.normals = normals;
        Some(edge)
    }
}

impl Region {
    // Of a count above 64, which a call on the region refuses, the edges of its 64 corners.
    pub fn edges(&self) -> EdgeIter<'_>
        ensures { edges_ahead result ≡ edges_of (view_of self.now) }
    {
        let count = self.count.min(64);
        let from = if count == 0 {
            Coo3D::origin()
        } else {
            self.vertices[count - 1]
        };
        EdgeIter {
            from,
            corners: &self.vertices[..count],
            normals: &self.cross_products[..count],
        }
    }
}

// The sum of longitude steps, one more taken: the short way round where it crosses the seam.
fn add_step(sum: f64, step: f64) -> f64
    ensures { result ≡ step_of sum step }
{
    let size = float::abs(step);
    if size <= float::PI {
        sum + step
    } else if step > 0.0 {
        sum - (float::TWO_PI - size)
    } else {
        sum + (float::TWO_PI - size)
    }
}

// Upstream's `Basic`: the outline goes round a pole, and its corners lie south on the whole.
fn basic(corners: &[Coo3D]) -> bool
    requires { 0 < length corners.now }
    ensures { result ≡ basic_of corners.now }
{
    let mut from = corners[corners.len() - 1];
    let mut sum_delta_lon = 0.0;
    let mut gravity_center_z = 0.0;
    for to in corners {
        sum_delta_lon = add_step(sum_delta_lon, to.lon - from.lon);
        gravity_center_z = gravity_center_z + to.z;
        from = *to;
    }
    (float::abs(sum_delta_lon) > float::PI) & (gravity_center_z < 0.0)
}

// The edges are passed here and not in a helper that takes the region by value, which would copy it. The normals are copied once an edge is in range, and a point in no
// edge's range needs none of them.
// By `edges`, or in one loop, 4 corners take a fifth more instructions; by `Edge::is_counted`, 64 corners take a twentieth more.
pub fn contains(r: Region, coo: Coo3D) -> Result<bool, Cause>
    ensures { answer_of result ≡ contains_of (view_of r) coo }
{
    let count = r.count;
    domain::check_count(count)?;
    let p = domain::check_point(coo, 0)?;
    let mut is_inside = r.contains_south_pole;
    let vertices = r.vertices;
    let mut from = vertices[count - 1];
    for first in 0..count {
        if is_in_lon_range(p, from, vertices[first]) {
            let normals = r.cross_products;
            for i in first..count {
                let to = vertices[i];
                if is_in_lon_range(p, from, to) {
                    is_inside = is_inside != (coo3d::dot_product(p, normals[i]) > 0.0);
                }
                from = to;
            }
            return Ok(is_inside);
        }
        from = vertices[first];
    }
    Ok(is_inside)
}

// The number stored, as it is.
pub fn seam_count(r: Region) -> Result<usize, Cause>
    ensures { answer_of result ≡ seam_count_of (view_of r) }
{
    domain::check_count(r.count)?;
    Ok(r.seam_count)
}

// The rule, its control point checked and numbered by the caller. Callers go on with the rule that is handed back.
pub fn check_rule(
    method: ContainsSouthPoleMethod,
    index: usize,
) -> Result<ContainsSouthPoleMethod, Cause>
    ensures { answer_of result ≡ rule_at index method }
{
    match method {
        ContainsSouthPoleMethod::Default => Ok(method),
        ContainsSouthPoleMethod::DefaultComplement => Ok(method),
        ContainsSouthPoleMethod::ContainsSouthPole => Ok(method),
        ContainsSouthPoleMethod::DoNotContainsSouthPole => Ok(method),
        ContainsSouthPoleMethod::ControlPointIn(p) => {
            let q = domain::check_point(p, index)?;
            Ok(ContainsSouthPoleMethod::ControlPointIn(q))
        }
        ContainsSouthPoleMethod::ControlPointOut(p) => {
            let q = domain::check_point(p, index)?;
            Ok(ContainsSouthPoleMethod::ControlPointOut(q))
        }
    }
}

// Whether an odd number of edges is counted at a point that was checked: the flag and the side of the point tell it. Here and below a count of
// 1 to 64 is asked for. It is no invariant of `Region`, whose fields are public: a value handed in may have any count. Of a type that holds a counted
// region by reference, `build` would copy its answer once more.
fn odd_at(r: Region, p: Coo3D) -> bool
    requires { (0 < r.count) × (r.count ≤ 64) × (point_at 0 p ≡ answered p) }
    ensures { result ≡ odd_at p (view_of r) }
{
    match contains(r, p) {
        Ok(is_inside) => r.contains_south_pole != is_inside,
        Err(_) => false,
    }
}

// `basic` of a region's corners. A slice of the region's own array would copy the region. Copied in `flag_by_rule`, the corners would lie on the
// stack beside the region that `odd_at` copies.
fn is_basic(r: Region) -> bool
    requires { (0 < r.count) × (r.count ≤ 64) }
    ensures { result ≡ basic_of (take r.count r.vertices) }
{
    let vertices = r.vertices;
    basic(&vertices[..r.count])
}

// The flag that a checked rule sets.
fn flag_by_rule(r: Region, rule: ContainsSouthPoleMethod) -> bool
    requires { (0 < r.count) × (r.count ≤ 64) × (rule_at 0 rule ≡ answered rule) }
    ensures { result ≡ rule_flag rule (view_of r) }
{
    match rule {
        ContainsSouthPoleMethod::Default => is_basic(r),
        ContainsSouthPoleMethod::DefaultComplement => !is_basic(r),
        ContainsSouthPoleMethod::ContainsSouthPole => true,
        ContainsSouthPoleMethod::DoNotContainsSouthPole => false,
        ContainsSouthPoleMethod::ControlPointIn(p) => !odd_at(r, p),
        ContainsSouthPoleMethod::ControlPointOut(p) => odd_at(r, p),
    }
}

// The flag that the rule sets for a region of these corners and normals. A control point is numbered by the count.
pub fn contains_south_pole(r: Region, method: ContainsSouthPoleMethod) -> Result<bool, Cause>
    ensures { answer_of result ≡ flag_of (view_of r) method }
{
    let corners = r.count;
    domain::check_count(corners)?;
    let rule = check_rule(method, corners)?;
    Ok(flag_by_rule(r, rule))
}

// No corner, and a clear flag.
pub fn empty() -> Region
    ensures { view_of result ≡ empty false }
{
    Region {
        vertices: [Coo3D::origin(); 64],
        cross_products: [Vect3::zero(); 64],
        count: 0,
        contains_south_pole: false,
        seam_count: 0,
    }
}

// A refused build.
pub fn refused(cause: Cause) -> Built
    ensures { Builds result (refused_for cause) }
{
    let region = empty();
    Built {
        region,
        outcome: Err(cause),
    }
}

// The normals and the seam count, worked out anew of the corners in the region itself, after whatever put the corners there, a build or a reader.
pub fn draw_edges(region: &mut Region) -> Result<(), Cause>
    ensures answer { outcome_of result (view_of region.new) ≡ drawn_of (view_of region.old) }
    ensures kept { OnErr result (region.new ≡ region.old) }
{
    domain::check_count(region.count)?;
    let count = region.count;
    let mut from = region.vertices[count - 1];
    let mut seam_count: usize = 0;
    for k in 0..count {
        let to = region.vertices[k];
        region.cross_products[k] = edge_normal(from, to);
        seam_count += crosses_seam(from, to) as usize;
        from = to;
    }
    region.seam_count = seam_count;
    Ok(())
}

// A region of these corners with this flag. They are checked, and all is worked out, in the region itself, so that no array is copied on the way.
// An array beside a count, as in `build`: a call of the manual, since there is no heap.
pub fn build_flagged(points: [Coo3D; 64], count: usize, flag: bool) -> Built
    ensures { Builds result (build_of points count (fixed_rule flag)) }
{
    if let Err(cause) = domain::check_count(count) {
        return refused(cause);
    }
    let mut region = Region {
        vertices: points,
        cross_products: [Vect3::zero(); 64],
        count,
        contains_south_pole: flag,
        seam_count: 0,
    };
    for i in 0..count {
        let p = region.vertices[i];
        match domain::check_point(p, i) {
            Ok(q) => region.vertices[i] = q,
            Err(cause) => return refused(cause),
        }
    }
    let outcome = draw_edges(&mut region);
    Built { region, outcome }
}

// Upstream: `Polygon::new_custom_vec3`. The corners are an array beside a count: a call of the manual, since there is no heap.
pub fn build(points: [Coo3D; 64], count: usize, method: ContainsSouthPoleMethod) -> Built
    ensures { Builds result (build_of points count method) }
{
    let mut built = build_flagged(points, count, false);
    let outcome = built.outcome;
    let Ok(()) = outcome else {
        return built;
    };
    match check_rule(method, built.region.count) {
        Err(cause) => refused(cause),
        Ok(rule) => {
            let flag = flag_by_rule(built.region, rule);
            built.region.contains_south_pole = flag;
            built
        }
    }
}
