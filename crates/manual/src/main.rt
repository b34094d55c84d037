// The worked examples of docs/CALLS.md, in its order: what they print is crates/manual/stdout, and tests/manual holds the document to both. Corners and
// files are arrays, since the calls need no heap.
#![tactic(auto)]

ghost use Rattle.std.specs.Prelude.{Some};

use coo3d::{Coo3D, UnitVect3, Vect3};
use crossings::Curve;
use refusal::Cause;
use region::{ContainsSouthPoleMethod, Edge, Region};
use std::io;
use tell::{at, corners_of};
use zone::Zone;

fn square_corners() -> [Coo3D; 64] {
    corners_of(&[
        at(1.0, 0.0, 0.0, 0.0, 0.0),
        at(0.0, 1.0, 0.0, 1.5, 0.0),
        at(-1.0, 0.0, 0.0, 3.0, 0.0),
        at(0.0, -1.0, 0.0, 4.5, 0.0),
    ])
}

fn square() -> Region {
    region::build(square_corners(), 4, ContainsSouthPoleMethod::Default).region
}

fn triangle() -> Region {
    let mut corners = square_corners();
    corners[2] = at(0.0, 0.0, 1.0, 0.0, 1.5);
    region::build(corners, 3, ContainsSouthPoleMethod::Default).region
}

fn vector(x: f64, y: f64, z: f64) -> Vect3 {
    Vect3 { x, y, z }
}

fn unit(x: f64, y: f64, z: f64) -> UnitVect3 {
    UnitVect3 { x, y, z }
}

fn region_build(rt: &impl Print) -> io::Result<()> {
    tell::call(rt, "region::build")?;
    let corners = square_corners();
    let south = at(0.0, 0.0, -1.0, 0.0, -1.5);
    let wrong = at(0.0, 0.0, -1.0, 7.0, -1.5);
    tell::answer(
        rt,
        region::build(corners, 4, ContainsSouthPoleMethod::Default),
    )?;
    tell::answer(
        rt,
        region::build(corners, 4, ContainsSouthPoleMethod::ControlPointIn(south)),
    )?;
    tell::answer(
        rt,
        region::build(corners, 4, ContainsSouthPoleMethod::ControlPointIn(wrong)),
    )?;
    tell::answer(
        rt,
        region::build(corners, 65, ContainsSouthPoleMethod::Default),
    )?;
    let r = region::build(corners, 4, ContainsSouthPoleMethod::ControlPointIn(wrong)).region;
    tell::answer(rt, region::contains(r, south))?;
    Ok(())
}

fn region_build_flagged(rt: &impl Print) -> io::Result<()> {
    tell::call(rt, "region::build_flagged")?;
    let mut corners = square_corners();
    tell::answer(rt, region::build_flagged(corners, 4, true))?;
    corners[2] = at(0.0, 0.0, -1.0, 7.0, -1.5);
    tell::answer(rt, region::build_flagged(corners, 4, true))?;
    Ok(())
}

fn region_empty(rt: &impl Print) -> io::Result<()> {
    tell::call(rt, "region::empty")?;
    let nothing = region::empty();
    tell::answer(rt, region::contains(nothing, at(0.0, 0.5, 0.5, 1.5, 0.5)))?;
    Ok(())
}

fn region_refused(rt: &impl Print) -> io::Result<()> {
    tell::call(rt, "region::refused")?;
    tell::answer(rt, region::refused(Cause::WrongTrailer))?;
    Ok(())
}

fn region_draw_edges(rt: &impl Print) -> io::Result<()> {
    tell::call(rt, "region::draw_edges")?;
    let mut r = region::empty();
    r.vertices = square_corners();
    r.count = 4;
    tell::answer(rt, region::draw_edges(&mut r))?;
    tell::answer(rt, region::seam_count(r))?;
    tell::answer(rt, region::contains(r, at(0.0, 0.5, 0.5, 1.5, 0.5)))?;
    r.vertices[3] = at(-0.5, 0.75, 0.0, 2.0, 0.0);
    tell::answer(rt, region::draw_edges(&mut r))?;
    tell::answer(rt, region::seam_count(r))?;
    r.count = 65;
    tell::answer(rt, region::draw_edges(&mut r))?;
    Ok(())
}

fn region_contains(rt: &impl Print) -> io::Result<()> {
    tell::call(rt, "region::contains")?;
    let s = square();
    tell::answer(rt, region::contains(s, at(0.0, 0.5, 0.5, 1.5, 0.5)))?;
    tell::answer(rt, region::contains(s, at(0.0, 0.0, -1.0, 0.0, -1.5)))?;
    tell::answer(rt, region::contains(s, at(0.0, 0.5, 0.5, 7.0, 0.5)))?;
    Ok(())
}

fn region_seam_count(rt: &impl Print) -> io::Result<()> {
    tell::call(rt, "region::seam_count")?;
    let s = square();
    tell::answer(rt, region::seam_count(s))?;
    let corners = corners_of(&[
        at(0.75, -0.25, -0.25, 6.0, -0.25),
        at(0.75, 0.25, -0.25, 0.25, -0.25),
        at(0.75, 0.25, 0.25, 0.25, 0.25),
        at(0.75, -0.25, 0.25, 6.0, 0.25),
    ]);
    let across = region::build(corners, 4, ContainsSouthPoleMethod::Default).region;
    tell::answer(rt, region::seam_count(across))?;
    let moved = edits::put(s, 3, at(-0.5, 0.75, 0.0, 2.0, 0.0)).region;
    tell::answer(rt, region::seam_count(moved))?;
    let nothing = region::empty();
    tell::answer(rt, region::seam_count(nothing))?;
    Ok(())
}

fn region_contains_south_pole(rt: &impl Print) -> io::Result<()> {
    tell::call(rt, "region::contains_south_pole")?;
    let s = square();
    let north = at(0.0, 0.0, 1.0, 0.0, 1.5);
    tell::answer(
        rt,
        region::contains_south_pole(s, ContainsSouthPoleMethod::DefaultComplement),
    )?;
    tell::answer(
        rt,
        region::contains_south_pole(s, ContainsSouthPoleMethod::ControlPointIn(north)),
    )?;
    Ok(())
}

fn region_check_rule(rt: &impl Print) -> io::Result<()> {
    tell::call(rt, "region::check_rule")?;
    let wrong = at(0.0, 0.0, -1.0, 7.0, -1.5);
    tell::answer(rt, region::check_rule(ContainsSouthPoleMethod::Default, 4))?;
    tell::answer(
        rt,
        region::check_rule(ContainsSouthPoleMethod::ControlPointOut(wrong), 4),
    )?;
    Ok(())
}

fn region_edge_normal(rt: &impl Print) -> io::Result<()> {
    tell::call(rt, "region::edge_normal")?;
    let c0 = at(1.0, 0.0, 0.0, 0.0, 0.0);
    let c1 = at(0.0, 1.0, 0.0, 1.5, 0.0);
    tell::answer(rt, region::edge_normal(c0, c1))?;
    tell::answer(rt, region::edge_normal(c1, c0))?;
    Ok(())
}

fn region_is_in_lon_range(rt: &impl Print) -> io::Result<()> {
    tell::call(rt, "region::is_in_lon_range")?;
    let v0 = at(1.0, 0.0, 0.0, 0.0, 0.0);
    let v1 = at(0.5, 0.75, 0.0, 1.0, 0.0);
    let v3 = at(-1.0, 0.25, 0.0, 3.0, 0.0);
    let half = at(-1.0, 0.0, 0.0, float::PI, 0.0);
    let v4 = at(-0.75, -0.75, 0.0, 4.0, 0.0);
    tell::answer(rt, region::is_in_lon_range(v1, v0, half))?;
    tell::answer(rt, region::is_in_lon_range(v4, v0, half))?;
    tell::answer(rt, region::is_in_lon_range(v4, v0, v4))?;
    tell::answer(rt, region::is_in_lon_range(v3, v0, v4))?;
    Ok(())
}

fn region_crosses_seam(rt: &impl Print) -> io::Result<()> {
    tell::call(rt, "region::crosses_seam")?;
    let v0 = at(1.0, 0.0, 0.0, 0.0, 0.0);
    let half = at(-1.0, 0.0, 0.0, float::PI, 0.0);
    let v4 = at(-0.75, -0.75, 0.0, 4.0, 0.0);
    tell::answer(rt, region::crosses_seam(v0, half))?;
    tell::answer(rt, region::crosses_seam(v0, v4))?;
    tell::answer(rt, region::crosses_seam(v4, v0))?;
    Ok(())
}

fn region_is_counted(rt: &impl Print) -> io::Result<()> {
    tell::call(rt, "region::is_counted")?;
    let p = at(0.0, 0.5, 0.5, 1.5, 0.5);
    let from = at(0.0, 1.0, 0.0, 1.5, 0.0);
    let to = at(-1.0, 0.0, 0.0, 3.0, 0.0);
    let normal = region::edge_normal(from, to);
    tell::answer(rt, region::is_counted(p, from, to, normal))?;
    Ok(())
}

fn region_edges(rt: &impl Print) -> io::Result<()> {
    tell::call(rt, "Region::edges")?;
    let s = square();
    for edge in s.edges() {
        tell::answer(rt, edge.to)?;
    }
    Ok(())
}

fn edge_new(rt: &impl Print) -> io::Result<()> {
    tell::call(rt, "Edge::new")?;
    let edge = Edge::new(at(0.0, 1.0, 0.0, 1.5, 0.0), at(1.0, 0.0, 0.0, 0.0, 0.0));
    tell::answer(rt, edge.normal)?;
    Ok(())
}

fn edge_crosses_seam(rt: &impl Print) -> io::Result<()> {
    tell::call(rt, "Edge::crosses_seam")?;
    let s = square();
    for edge in s.edges() {
        tell::answer(rt, edge.crosses_seam())?;
    }
    Ok(())
}

fn edge_is_in_range(rt: &impl Print) -> io::Result<()> {
    tell::call(rt, "Edge::is_in_range")?;
    let p = at(0.0, 0.5, 0.5, 1.5, 0.5);
    let s = square();
    for edge in s.edges() {
        tell::answer(rt, edge.is_in_range(p))?;
    }
    Ok(())
}

fn edge_is_counted(rt: &impl Print) -> io::Result<()> {
    tell::call(rt, "Edge::is_counted")?;
    let south = at(0.0, 0.5, -0.5, 1.5, -0.5);
    let s = square();
    for edge in s.edges() {
        tell::answer(rt, edge.is_counted(south))?;
    }
    Ok(())
}

fn cost_contains_with_range_count(rt: &impl Print) -> io::Result<()> {
    tell::call(rt, "cost::contains_with_range_count")?;
    let s = square();
    tell::answer(
        rt,
        cost::contains_with_range_count(s, at(0.0, 0.5, 0.5, 1.5, 0.5)),
    )?;
    let corners = corners_of(&[
        at(0.75, 0.5, -0.25, 0.5, -0.25),
        at(0.25, 0.75, -0.25, 1.5, -0.25),
        at(0.25, 0.75, 0.25, 1.5, 0.25),
        at(0.75, 0.5, 0.25, 0.5, 0.25),
    ]);
    let box_of_four = region::build(corners, 4, ContainsSouthPoleMethod::Default).region;
    tell::answer(
        rt,
        cost::contains_with_range_count(box_of_four, at(0.5, 0.75, 0.0, 1.0, 0.0)),
    )?;
    tell::answer(
        rt,
        cost::contains_with_range_count(box_of_four, at(-0.75, 0.5, 0.0, 2.5, 0.0)),
    )?;
    tell::answer(
        rt,
        cost::contains_with_range_count(box_of_four, at(0.5, 0.75, 0.0, 7.0, 0.0)),
    )?;
    Ok(())
}

fn cost_costliest_outline(rt: &impl Print) -> io::Result<()> {
    tell::call(rt, "cost::costliest_outline")?;
    let even = cost::costliest_outline(64);
    let built = even.built;
    let outline = built.region;
    tell::answer(rt, built)?;
    tell::answer(rt, region::seam_count(outline))?;
    tell::answer(rt, cost::contains_with_range_count(outline, even.point))?;
    let odd = cost::costliest_outline(5);
    let built_odd = odd.built;
    tell::answer(rt, built_odd)?;
    tell::answer(
        rt,
        cost::contains_with_range_count(built_odd.region, odd.point),
    )?;
    let none = cost::costliest_outline(0);
    tell::answer(rt, none.built)?;
    let many = cost::costliest_outline(65);
    tell::answer(rt, many.built)?;
    Ok(())
}

fn edits_put(rt: &impl Print) -> io::Result<()> {
    tell::call(rt, "edits::put")?;
    let s = square();
    let p = at(0.5, 0.5, 0.25, 0.75, 0.3);
    tell::answer(rt, region::contains(s, p))?;
    let edited = edits::put(s, 1, at(0.0, 1.0, 1.0, 1.5, 0.5));
    tell::answer(rt, edited)?;
    let r = edited.region;
    tell::answer(rt, region::contains(r, p))?;
    tell::answer(rt, edits::put(s, 4, p))?;
    Ok(())
}

fn edits_insert(rt: &impl Print) -> io::Result<()> {
    tell::call(rt, "edits::insert")?;
    let s = square();
    let corner = at(0.75, -0.75, 0.25, 5.5, 0.25);
    tell::answer(rt, edits::insert(s, 4, corner))?;
    tell::answer(rt, edits::insert(s, 5, corner))?;
    Ok(())
}

fn edits_remove(rt: &impl Print) -> io::Result<()> {
    tell::call(rt, "edits::remove")?;
    let s = square();
    tell::answer(rt, edits::remove(s, 3))?;
    let corners = square_corners();
    let single = region::build(corners, 1, ContainsSouthPoleMethod::Default).region;
    tell::answer(rt, edits::remove(single, 0))?;
    Ok(())
}

fn edits_turn(rt: &impl Print) -> io::Result<()> {
    tell::call(rt, "edits::turn")?;
    let s = square();
    tell::answer(rt, edits::turn(s))?;
    Ok(())
}

fn edits_hold(rt: &impl Print) -> io::Result<()> {
    tell::call(rt, "edits::hold")?;
    let s = square();
    let south = at(0.0, 0.0, -1.0, 0.0, -1.5);
    let held = edits::hold(s, south);
    tell::answer(rt, held)?;
    let r = held.region;
    tell::answer(rt, region::contains(r, south))?;
    tell::answer(rt, edits::hold(r, south))?;
    tell::answer(rt, edits::hold(s, at(0.0, 0.0, -3.0, 0.0, -1.5)))?;
    Ok(())
}

fn edits_hold_lent(rt: &impl Print) -> io::Result<()> {
    tell::call(rt, "edits::hold_lent")?;
    let south = at(0.0, 0.0, -1.0, 0.0, -1.5);
    let s = square();
    tell::answer(rt, lending::hold_on_lent(s, south))?;
    Ok(())
}

fn lending_hold_on_lent(rt: &impl Print) -> io::Result<()> {
    tell::call(rt, "lending::hold_on_lent")?;
    let s = square();
    tell::answer(rt, lending::hold_on_lent(s, at(0.0, 0.0, -3.0, 0.0, -1.5)))?;
    Ok(())
}

fn edits_rule(rt: &impl Print) -> io::Result<()> {
    tell::call(rt, "edits::rule")?;
    let s = square();
    let wrong = at(0.0, 0.0, -1.0, 7.0, -1.5);
    tell::answer(
        rt,
        edits::rule(s, ContainsSouthPoleMethod::DefaultComplement),
    )?;
    tell::answer(
        rt,
        edits::rule(s, ContainsSouthPoleMethod::ControlPointOut(wrong)),
    )?;
    Ok(())
}

fn great_circles_intersect_great_circle_arc(rt: &impl Print) -> io::Result<()> {
    tell::call(rt, "great_circles::intersect_great_circle_arc")?;
    let s = square();
    let a = at(0.75, 1.0, -0.5, 0.9, -0.4);
    let b = at(0.75, 1.0, 0.5, 0.95, 0.4);
    tell::answer(rt, great_circles::intersect_great_circle_arc(s, a, b))?;
    tell::answer(rt, great_circles::intersect_great_circle_arc(s, b, b))?;
    tell::answer(
        rt,
        great_circles::intersect_great_circle_arc(s, a, at(0.75, 1.0, 0.5, 0.95, 2.0)),
    )?;
    Ok(())
}

fn great_circles_intersect_great_circle_arc_all(rt: &impl Print) -> io::Result<()> {
    tell::call(rt, "great_circles::intersect_great_circle_arc_all")?;
    let t = triangle();
    let a = at(1.0, -0.25, 1.0, 6.04, 0.77);
    let b = at(-0.25, 1.0, 1.0, 1.82, 0.77);
    tell::answer(rt, great_circles::intersect_great_circle_arc_all(t, a, b))?;
    Ok(())
}

fn great_circles_is_intersecting_great_circle_arc(rt: &impl Print) -> io::Result<()> {
    tell::call(rt, "great_circles::is_intersecting_great_circle_arc")?;
    let s = square();
    let a = at(0.75, 1.0, -0.5, 0.9, -0.4);
    let b = at(0.75, 1.0, 0.5, 0.95, 0.4);
    tell::answer(rt, great_circles::is_intersecting_great_circle_arc(s, a, b))?;
    Ok(())
}

fn great_circles_intersect_great_circle_all(rt: &impl Print) -> io::Result<()> {
    tell::call(rt, "great_circles::intersect_great_circle_all")?;
    let t = triangle();
    tell::answer(
        rt,
        great_circles::intersect_great_circle_all(t, vector(-0.75, 1.0, 1.0)),
    )?;
    tell::answer(
        rt,
        great_circles::intersect_great_circle_all(t, vector(-0.75, 1.0, 2.5)),
    )?;
    Ok(())
}

fn parallels_intersect_parallel(rt: &impl Print) -> io::Result<()> {
    tell::call(rt, "parallels::intersect_parallel")?;
    let t = triangle();
    let s = square();
    tell::answer(rt, parallels::intersect_parallel(t, 0.5, 0.5, 0.75))?;
    tell::answer(rt, parallels::intersect_parallel(s, 0.0, 0.0, 1.0))?;
    tell::answer(rt, parallels::intersect_parallel(s, 1.6, 1.0, 0.0))?;
    Ok(())
}

fn parallels_intersect_parallel_all(rt: &impl Print) -> io::Result<()> {
    tell::call(rt, "parallels::intersect_parallel_all")?;
    let t = triangle();
    tell::answer(rt, parallels::intersect_parallel_all(t, 0.5, 0.5, 0.75))?;
    Ok(())
}

fn parallels_first_is_not_head(rt: &impl Print) -> io::Result<()> {
    let corners = corners_of(&[
        at(-1.0, 0.5, 0.5, 2.5, 0.5),
        at(0.0, 0.0, 1.0, 0.0, 1.5),
        at(0.0, 1.0, 0.0, 1.5, 0.0),
    ]);
    let r = region::build(corners, 3, ContainsSouthPoleMethod::Default).region;
    tell::answer(rt, parallels::intersect_parallel(r, 0.25, 0.25, 0.25))?;
    tell::answer(rt, parallels::intersect_parallel_all(r, 0.25, 0.25, 0.25))?;
    Ok(())
}

fn parallels_is_intersecting_parallel(rt: &impl Print) -> io::Result<()> {
    tell::call(rt, "parallels::is_intersecting_parallel")?;
    let t = triangle();
    tell::answer(rt, parallels::is_intersecting_parallel(t, 0.5, 0.5, 0.75))?;
    tell::answer(rt, parallels::is_intersecting_parallel(t, -0.5, -0.5, 0.75))?;
    Ok(())
}

fn zone_new(rt: &impl Print) -> io::Result<()> {
    tell::call(rt, "Zone::new")?;
    tell::answer(rt, Zone::new(5.5, 0.25, 0.5, float::HALF_PI))?;
    tell::answer(rt, Zone::new(5.5, 0.25, 0.5, 1.6))?;
    Ok(())
}

// In place of a zone whose bounds are refused; those of the examples are not.
const NO_ZONE: Zone = Zone {
    lon_min: 0.0,
    lat_min: 0.0,
    lon_max: 0.0,
    lat_max: 0.0,
    cross_primary_meridian: false,
};

fn plain_zone() -> Zone {
    Zone::new(0.5, 0.25, 1.5, 0.75).unwrap_or(NO_ZONE)
}

fn polar_zone() -> Zone {
    Zone::new(5.5, 0.25, 0.5, float::HALF_PI).unwrap_or(NO_ZONE)
}

fn zone_dlon(rt: &impl Print) -> io::Result<()> {
    tell::call(rt, "Zone::dlon")?;
    let plain = plain_zone();
    let polar = polar_zone();
    tell::answer(rt, plain.dlon())?;
    tell::answer(rt, polar.dlon())?;
    Ok(())
}

fn zone_crossed_vertically(rt: &impl Print) -> io::Result<()> {
    tell::call(rt, "Zone::crossed_vertically")?;
    let plain = plain_zone();
    tell::answer(rt, plain.crossed_vertically(1.0, 0.0, 0.75))?;
    tell::answer(rt, plain.crossed_vertically(1.0, 0.25, 0.75))?;
    Ok(())
}

fn zone_crossed_horizontally(rt: &impl Print) -> io::Result<()> {
    tell::call(rt, "Zone::crossed_horizontally")?;
    let plain = plain_zone();
    tell::answer(rt, plain.crossed_horizontally(0.25, 1.5, 0.5))?;
    tell::answer(rt, plain.crossed_horizontally(0.5, 1.5, 0.5))?;
    Ok(())
}

fn zone_is_lon_range_compatible(rt: &impl Print) -> io::Result<()> {
    tell::call(rt, "Zone::is_lon_range_compatible")?;
    let plain = plain_zone();
    tell::answer(rt, plain.is_lon_range_compatible(0.5, 1.25))?;
    tell::answer(rt, plain.is_lon_range_compatible(0.5, 1.5))?;
    Ok(())
}

fn zone_contains(rt: &impl Print) -> io::Result<()> {
    tell::call(rt, "Zone::contains")?;
    let plain = plain_zone();
    let polar = polar_zone();
    tell::answer(rt, plain.contains(0.5, 0.25))?;
    tell::answer(rt, plain.contains(1.5, 0.25))?;
    tell::answer(rt, polar.contains(0.0, float::HALF_PI))?;
    Ok(())
}

fn zone_contains_exclusive(rt: &impl Print) -> io::Result<()> {
    tell::call(rt, "Zone::contains_exclusive")?;
    let plain = plain_zone();
    tell::answer(rt, plain.contains_exclusive(0.5, 0.25))?;
    tell::answer(rt, plain.contains_exclusive(1.0, 0.5))?;
    Ok(())
}

fn zone_vertices(rt: &impl Print) -> io::Result<()> {
    tell::call(rt, "Zone::vertices")?;
    let polar = polar_zone();
    for vertex in polar.vertices() {
        tell::answer(rt, vertex)?;
    }
    Ok(())
}

fn cone_bounding_cone(rt: &impl Print) -> io::Result<()> {
    tell::call(rt, "cone::bounding_cone")?;
    let mut points = corners_of(&[at(1.0, -0.5, 0.0, 5.82, 0.0), at(1.0, 0.5, 0.0, 0.46, 0.0)]);
    tell::answer(rt, cone::bounding_cone(points, 2))?;
    tell::answer(rt, cone::bounding_cone(points, 0))?;
    points[1] = at(-1.0, 0.5, 0.0, 2.68, 0.0);
    tell::answer(rt, cone::bounding_cone(points, 2))?;
    Ok(())
}

fn square_file() -> [u8; 176] {
    let mut file: [u8; 176] = [0; 176];
    let s = square();
    let _ = region_file::write(s, &mut file);
    file
}

fn region_file_read_trailer(rt: &impl Print) -> io::Result<()> {
    tell::call(rt, "region_file::read_trailer")?;
    let mut file = square_file();
    tell::answer(rt, region_file::read_trailer(&file))?;
    tell::answer(rt, region_file::read_trailer(&file[1..]))?;
    file[168] = 65;
    tell::answer(rt, region_file::read_trailer(&file))?;
    Ok(())
}

fn region_file_read_straight(rt: &impl Print) -> io::Result<()> {
    tell::call(rt, "region_file::read_straight")?;
    let mut space: [u8; 200] = [0xAA; 200];
    let s = square();
    let _ = region_file::write(s, &mut space[24..]);
    let read = region_file::read_straight(&space);
    tell::answer(rt, read)?;
    let r = read.region;
    tell::answer(rt, region::contains(r, at(0.0, 0.5, 0.5, 1.5, 0.5)))?;
    tell::answer(rt, region_file::read_straight(&space[25..]))?;
    space[71] = 0x41;
    let refused = region_file::read_straight(&space);
    tell::answer(rt, refused)?;
    let nothing = refused.region;
    tell::answer(rt, region::contains(nothing, at(0.0, 0.5, 0.5, 1.5, 0.5)))?;
    Ok(())
}

fn region_file_read(rt: &impl Print) -> io::Result<()> {
    tell::call(rt, "region_file::read")?;
    let mut file = square_file();
    let read = region_file::read(&file);
    tell::answer(rt, read)?;
    let r = read.region;
    tell::answer(rt, region::contains(r, at(0.0, 0.5, 0.5, 1.5, 0.5)))?;
    tell::answer(rt, region_file::read(&file[1..]))?;
    file[47] = 0x41;
    tell::answer(rt, region_file::read(&file))?;
    Ok(())
}

fn region_file_read_behind_a_front(rt: &impl Print) -> io::Result<()> {
    let mut space: [u8; 200] = [0xAA; 200];
    let s = square();
    let _ = region_file::write(s, &mut space[24..]);
    tell::answer(rt, region_file::read(&space))?;
    Ok(())
}

fn region_file_write(rt: &impl Print) -> io::Result<()> {
    tell::call(rt, "region_file::write")?;
    let s = square();
    let mut out: [u8; 200] = [0xAA; 200];
    tell::written(rt, region_file::write(s, &mut out))?;
    tell::bytes(rt, &out[160..176])?;
    tell::bytes(rt, &out[176..180])?;
    let mut short: [u8; 100] = [0xAA; 100];
    tell::written(rt, region_file::write(s, &mut short))?;
    Ok(())
}

fn region_file_set_flag(rt: &impl Print) -> io::Result<()> {
    tell::call(rt, "region_file::set_flag")?;
    let mut file = square_file();
    tell::answer(rt, region_file::set_flag(&mut file, true))?;
    tell::bytes(rt, &file[160..176])?;
    let read = region_file::read(&file);
    let r = read.region;
    tell::answer(rt, region::contains(r, at(0.0, 0.5, 0.5, 1.5, 0.5)))?;
    tell::answer(rt, region_file::set_flag(&mut file[1..], true))?;
    Ok(())
}

fn coo3d_dot_product(rt: &impl Print) -> io::Result<()> {
    tell::call(rt, "coo3d::dot_product")?;
    let v1 = vector(0.5, 1.0, 2.0);
    let v2 = vector(1.0, -0.5, 0.25);
    tell::answer(rt, coo3d::dot_product(v1, v2))?;
    Ok(())
}

fn coo3d_cross_product(rt: &impl Print) -> io::Result<()> {
    tell::call(rt, "coo3d::cross_product")?;
    let v1 = vector(0.5, 1.0, 2.0);
    let v2 = vector(1.0, -0.5, 0.25);
    tell::answer(rt, coo3d::cross_product(v1, v2))?;
    Ok(())
}

fn coo3d_squared_norm_of(rt: &impl Print) -> io::Result<()> {
    tell::call(rt, "coo3d::squared_norm_of")?;
    tell::answer(rt, coo3d::squared_norm_of(0.5, 1.0, 2.0))?;
    Ok(())
}

fn coo3d_is_unit_from_norm(rt: &impl Print) -> io::Result<()> {
    tell::call(rt, "coo3d::is_unit_from_norm")?;
    tell::answer(rt, coo3d::is_unit_from_norm(1.0))?;
    tell::answer(rt, coo3d::is_unit_from_norm(1.5))?;
    Ok(())
}

fn coo3d_coo3d_origin(rt: &impl Print) -> io::Result<()> {
    tell::call(rt, "Coo3D::origin")?;
    let o = Coo3D::origin();
    tell::answer(rt, o)?;
    Ok(())
}

fn coo3d_coo3d_to_vect3(rt: &impl Print) -> io::Result<()> {
    tell::call(rt, "Coo3D::to_vect3")?;
    let p = at(0.0, 0.5, 0.75, 1.5, 0.5);
    tell::answer(rt, p.to_vect3())?;
    Ok(())
}

fn coo3d_vect3_zero(rt: &impl Print) -> io::Result<()> {
    tell::call(rt, "Vect3::zero")?;
    tell::answer(rt, Vect3::zero())?;
    Ok(())
}

fn coo3d_vect3_squared_norm(rt: &impl Print) -> io::Result<()> {
    tell::call(rt, "Vect3::squared_norm")?;
    let v = vector(0.75, 1.0, 0.0);
    tell::answer(rt, v.squared_norm())?;
    Ok(())
}

fn coo3d_vect3_norm(rt: &impl Print) -> io::Result<()> {
    tell::call(rt, "Vect3::norm")?;
    let v = vector(0.75, 1.0, 0.0);
    tell::answer(rt, v.norm())?;
    Ok(())
}

fn coo3d_vect3_opposite(rt: &impl Print) -> io::Result<()> {
    tell::call(rt, "Vect3::opposite")?;
    let v = vector(0.75, 1.0, 0.0);
    tell::answer(rt, v.opposite())?;
    Ok(())
}

fn coo3d_vect3_squared_euclidean_dist(rt: &impl Print) -> io::Result<()> {
    tell::call(rt, "Vect3::squared_euclidean_dist")?;
    let v = vector(0.75, 1.0, 0.0);
    let w = vector(0.25, 1.0, 1.0);
    tell::answer(rt, v.squared_euclidean_dist(w))?;
    Ok(())
}

fn coo3d_vect3_normalized(rt: &impl Print) -> io::Result<()> {
    tell::call(rt, "Vect3::normalized")?;
    let v = vector(0.0, 0.0, 2.0);
    tell::answer(rt, v.normalized())?;
    let zero = vector(0.0, 0.0, 0.0);
    tell::answer(rt, zero.normalized())?;
    Ok(())
}

fn coo3d_unit_new(rt: &impl Print) -> io::Result<()> {
    tell::call(rt, "UnitVect3::new")?;
    tell::answer(rt, UnitVect3::new(0.0, 0.0, 2.0))?;
    tell::answer(rt, UnitVect3::new(0.0, 1.0, 0.0))?;
    Ok(())
}

fn coo3d_unit_opposite(rt: &impl Print) -> io::Result<()> {
    tell::call(rt, "UnitVect3::opposite")?;
    let u = unit(0.0, 0.0, 2.0);
    tell::answer(rt, u.opposite())?;
    Ok(())
}

fn coo3d_unit_is_finite(rt: &impl Print) -> io::Result<()> {
    tell::call(rt, "UnitVect3::is_finite")?;
    let v = vector(0.0, 0.0, 0.0);
    let u = v.normalized();
    tell::answer(rt, u.is_finite())?;
    Ok(())
}

fn coo3d_unit_to_vect3(rt: &impl Print) -> io::Result<()> {
    tell::call(rt, "UnitVect3::to_vect3")?;
    let u = unit(0.0, 0.0, 1.0);
    tell::answer(rt, u.to_vect3())?;
    Ok(())
}

fn domain_check_point(rt: &impl Print) -> io::Result<()> {
    tell::call(rt, "domain::check_point")?;
    tell::answer(rt, domain::check_point(at(0.0, 0.5, 0.75, 1.5, 0.5), 3))?;
    tell::answer(rt, domain::check_point(at(0.0, 0.5, 0.75, 7.0, 0.5), 3))?;
    Ok(())
}

fn domain_check_vector(rt: &impl Print) -> io::Result<()> {
    tell::call(rt, "domain::check_vector")?;
    tell::answer(rt, domain::check_vector(vector(-2.0, 0.0, 2.0), 0))?;
    tell::answer(rt, domain::check_vector(vector(-2.0, 0.0, 2.5), 0))?;
    Ok(())
}

fn domain_check_points(rt: &impl Print) -> io::Result<()> {
    tell::call(rt, "domain::check_points")?;
    let mut points = square_corners();
    tell::answer(rt, domain::check_points(points, 4).outcome)?;
    let wrong = at(0.0, 0.5, 0.75, 7.0, 0.5);
    points[2] = wrong;
    points[3] = wrong;
    tell::answer(rt, domain::check_points(points, 4).outcome)?;
    tell::answer(rt, domain::check_points(points, 65).outcome)?;
    Ok(())
}

fn domain_check_count(rt: &impl Print) -> io::Result<()> {
    tell::call(rt, "domain::check_count")?;
    tell::answer(rt, domain::check_count(64))?;
    tell::answer(rt, domain::check_count(0))?;
    tell::answer(rt, domain::check_count(65))?;
    Ok(())
}

fn root_sqrt(rt: &impl Print) -> io::Result<()> {
    tell::call(rt, "root::sqrt")?;
    tell::answer(rt, root::sqrt(2.25))?;
    tell::answer(rt, root::sqrt(2.0))?;
    tell::answer(rt, root::sqrt(-0.0))?;
    tell::answer(rt, root::sqrt(-1.0))?;
    Ok(())
}

fn root_whole_root(rt: &impl Print) -> io::Result<()> {
    tell::call(rt, "root::whole_root")?;
    let near = root::whole_root(1200 * 1200 + 350 * 350);
    tell::answer(rt, near.root)?;
    tell::answer(rt, near.remainder)?;
    let far = root::whole_root(1200 * 1200 + 352 * 352);
    tell::answer(rt, far.root)?;
    tell::answer(rt, far.remainder)?;
    let greatest = root::whole_root(18446744073709551615);
    tell::answer(rt, greatest.root)?;
    tell::answer(rt, greatest.remainder)?;
    Ok(())
}

fn float_abs(rt: &impl Print) -> io::Result<()> {
    tell::call(rt, "float::abs")?;
    tell::answer(rt, float::abs(-0.5))?;
    tell::answer(rt, float::abs(-0.0))?;
    Ok(())
}

fn float_is_finite(rt: &impl Print) -> io::Result<()> {
    tell::call(rt, "float::is_finite")?;
    tell::answer(rt, float::is_finite(0.5))?;
    tell::answer(rt, float::is_finite(1e308 * 10.0))?;
    Ok(())
}

fn float_max(rt: &impl Print) -> io::Result<()> {
    tell::call(rt, "float::max")?;
    tell::answer(rt, float::max(0.5, 0.75))?;
    Ok(())
}

fn float_within(rt: &impl Print) -> io::Result<()> {
    tell::call(rt, "float::within")?;
    tell::answer(rt, float::within(0.0, 1.0, 1.0))?;
    Ok(())
}

fn float_within_half_open(rt: &impl Print) -> io::Result<()> {
    tell::call(rt, "float::within_half_open")?;
    tell::answer(rt, float::within_half_open(0.0, 1.0, 1.0))?;
    Ok(())
}

fn float_from_bits(rt: &impl Print) -> io::Result<()> {
    tell::call(rt, "float::from_bits")?;
    tell::answer(rt, float::from_bits(0x3fe8_0000_0000_0000) == 0.75)?;
    Ok(())
}

fn float_to_bits(rt: &impl Print) -> io::Result<()> {
    tell::call(rt, "float::to_bits")?;
    tell::bits(rt, float::to_bits(0.75))?;
    Ok(())
}

fn crossings_no_points(rt: &impl Print) -> io::Result<()> {
    tell::call(rt, "crossings::no_points")?;
    let points = crossings::no_points();
    tell::answer(rt, points[63])?;
    Ok(())
}

fn crossings_refused(rt: &impl Print) -> io::Result<()> {
    tell::call(rt, "crossings::refused")?;
    tell::answer(rt, crossings::refused(Cause::NotFinite))?;
    Ok(())
}

fn crossings_test_finite(rt: &impl Print) -> io::Result<()> {
    tell::call(rt, "crossings::test_finite")?;
    let v = vector(0.0, 0.0, 0.0);
    tell::answer(rt, crossings::test_finite(Some(unit(0.0, 1.0, 0.0))))?;
    tell::answer(rt, crossings::test_finite(None))?;
    tell::answer(rt, crossings::test_finite(Some(v.normalized())))?;
    Ok(())
}

fn crossings_is_intersecting(rt: &impl Print) -> io::Result<()> {
    tell::call(rt, "crossings::is_intersecting")?;
    tell::answer(rt, crossings::is_intersecting(Ok(None)))?;
    Ok(())
}

// A curve that crosses each edge where it ends.
#[derive(Clone, Copy)]
struct Ends;

impl Curve for Ends {
    ghost crossing_of = { λ ends e. Some (record { x = e.to.x; y = e.to.y; z = e.to.z }) };

    fn crossing(&self, _from: &Coo3D, to: &Coo3D, _normal: &Vect3) -> Option<UnitVect3> {
        Some(UnitVect3 {
            x: to.x,
            y: to.y,
            z: to.z,
        })
    }
}

fn crossings_first_crossing(rt: &impl Print) -> io::Result<()> {
    tell::call(rt, "crossings::first_crossing")?;
    let s = square();
    tell::answer(rt, crossings::first_crossing(&s, Ok(Ends)))?;
    Ok(())
}

fn crossings_all_crossings(rt: &impl Print) -> io::Result<()> {
    tell::call(rt, "crossings::all_crossings")?;
    let s = square();
    tell::answer(rt, crossings::all_crossings(&s, Ok(Ends)))?;
    let none: Result<Ends, Cause> = Err(Cause::NoSuchParallel);
    tell::answer(rt, crossings::all_crossings(&s, none))?;
    Ok(())
}

fn refusal_number(rt: &impl Print) -> io::Result<()> {
    tell::call(rt, "refusal::number")?;
    tell::answer(rt, refusal::number(Cause::ZoneBounds))?;
    Ok(())
}

fn refusal_decide(rt: &impl Print) -> io::Result<()> {
    tell::call(rt, "refusal::decide")?;
    tell::answer(rt, refusal::decide(true))?;
    Ok(())
}

fn meridian_of_a_corner(rt: &impl Print) -> io::Result<()> {
    tell::call(rt, "case a")?;
    let s = square();
    tell::answer(rt, region::contains(s, at(0.5, 0.0, 0.5, 0.0, 0.75)))?;
    tell::answer(rt, region::contains(s, at(-0.5, 0.0, 0.5, 3.0, 0.75)))?;
    tell::answer(rt, region::contains(s, at(0.0, -0.5, 0.5, 4.5, 0.75)))?;
    Ok(())
}

fn range_of_half_a_turn(rt: &impl Print) -> io::Result<()> {
    tell::call(rt, "case b")?;
    let v0 = at(1.0, 0.0, 0.0, 0.0, 0.0);
    let v1 = at(0.5, 0.75, 0.0, 1.0, 0.0);
    let v4 = at(-0.75, -0.75, 0.0, 4.0, 0.0);
    let half = at(-1.0, 0.0, 0.0, float::PI, 0.0);
    let above = at(-1.0, 0.0, 0.0, float::from_bits(0x4009_21fb_5444_2d19), 0.0);
    tell::answer(rt, region::is_in_lon_range(v1, half, v0))?;
    tell::answer(rt, region::is_in_lon_range(v4, half, v0))?;
    tell::answer(rt, region::is_in_lon_range(v1, above, v0))?;
    tell::answer(rt, region::is_in_lon_range(v4, above, v0))?;
    Ok(())
}

fn edge_of_half_a_turn(rt: &impl Print) -> io::Result<()> {
    let mut corners = square_corners();
    corners[1] = at(-0.5, 1.0, 0.0, float::PI, 0.0);
    corners[2] = at(0.0, -1.0, 0.0, 4.5, 0.0);
    let r = region::build(corners, 3, ContainsSouthPoleMethod::Default).region;
    tell::answer(rt, region::contains(r, at(0.0, 0.0, 1.0, 1.0, 0.5)))?;
    tell::answer(rt, region::contains(r, at(0.0, 0.0, 1.0, 4.0, 0.5)))?;
    Ok(())
}

fn equal_longitudes(rt: &impl Print) -> io::Result<()> {
    tell::call(rt, "case c")?;
    let v1 = at(0.5, 0.75, 0.0, 1.0, 0.0);
    tell::answer(rt, region::is_in_lon_range(v1, v1, v1))?;
    let mut corners = square_corners();
    corners[1] = at(0.0, 0.0, 1.0, 0.0, 1.5);
    let r = region::build(corners, 2, ContainsSouthPoleMethod::Default).region;
    let p = at(0.5, 0.5, 0.5, 0.0, 0.5);
    tell::answer(rt, region::contains(r, p))?;
    let other = edits::turn(r).region;
    tell::answer(rt, region::contains(other, p))?;
    Ok(())
}

fn longitude_of_a_whole_turn(rt: &impl Print) -> io::Result<()> {
    tell::call(rt, "case d")?;
    let mut corners = square_corners();
    corners[0] = at(1.0, 0.0, 0.0, float::TWO_PI, 0.0);
    let r = region::build(corners, 4, ContainsSouthPoleMethod::Default).region;
    let p = at(0.5, 0.0, 0.5, 0.0, 0.75);
    let q = at(0.5, 0.0, 0.5, float::TWO_PI, 0.75);
    tell::answer(rt, region::contains(r, p))?;
    tell::answer(rt, region::contains(r, q))?;
    let s = square();
    tell::answer(rt, region::contains(s, q))?;
    tell::answer(rt, region::is_in_lon_range(q, p, q))?;
    tell::answer(rt, region::is_in_lon_range(p, p, q))?;
    Ok(())
}

fn insert_at_the_count(rt: &impl Print) -> io::Result<()> {
    tell::call(rt, "case e")?;
    let s = square();
    let p = at(0.75, -0.75, -0.125, 5.5, -0.125);
    tell::answer(rt, region::contains(s, p))?;
    let edited = edits::insert(s, 4, at(0.75, -0.75, -0.25, 5.5, -0.25));
    tell::answer(rt, edited)?;
    let r = edited.region;
    tell::answer(rt, region::contains(r, p))?;
    let last = r.vertices[4];
    tell::answer(rt, last)?;
    Ok(())
}

fn two_puts(rt: &impl Print) -> io::Result<()> {
    tell::call(rt, "case f")?;
    let s = square();
    let p = at(0.5, 0.5, 0.75, 0.75, 0.5);
    let q = at(0.5, -0.25, 0.25, 5.0, 0.25);
    let r = edits::put(s, 1, at(0.0, 1.0, 1.0, 1.5, 0.5)).region;
    tell::answer(rt, region::contains(r, p))?;
    tell::answer(rt, region::contains(r, q))?;
    let t = edits::put(r, 0, at(1.0, 0.0, 1.0, 0.0, 0.5)).region;
    tell::answer(rt, region::contains(t, p))?;
    tell::answer(rt, region::contains(t, q))?;
    Ok(())
}

fn holds_in_a_row(rt: &impl Print) -> io::Result<()> {
    tell::call(rt, "case g")?;
    let s = square();
    let south = at(0.0, 0.0, -1.0, 0.0, -1.5);
    let north = at(0.0, 0.0, 1.0, 0.0, 1.5);
    let first = edits::hold(s, south);
    tell::answer(rt, first)?;
    let r = first.region;
    let second = edits::hold(r, north);
    tell::answer(rt, second)?;
    let t = second.region;
    tell::answer(rt, region::contains(t, south))?;
    tell::answer(rt, edits::hold(t, north))?;
    Ok(())
}

fn roots_beside_one(rt: &impl Print) -> io::Result<()> {
    tell::call(rt, "case h")?;
    tell::answer(rt, root::sqrt(float::from_bits(0x3fef_ffff_ffff_ffff)))?;
    tell::answer(rt, root::sqrt(float::from_bits(0x3ff0_0000_0000_0001)))?;
    Ok(())
}

fn north_edges(rt: &impl Print) -> io::Result<()> {
    tell::call(rt, "case i")?;
    let whole = Zone::new(0.0, -float::HALF_PI, float::TWO_PI, float::HALF_PI).unwrap_or(NO_ZONE);
    let vertices = whole.vertices();
    tell::answer(rt, vertices[1])?;
    tell::answer(rt, whole.contains(0.0, float::HALF_PI))?;
    let north = float::from_bits(0x3ff9_21fb_5444_2d17);
    let lower = Zone::new(0.0, -float::HALF_PI, float::TWO_PI, north).unwrap_or(NO_ZONE);
    let others = lower.vertices();
    tell::answer(rt, others[1])?;
    tell::answer(rt, lower.contains(0.0, float::HALF_PI))?;
    Ok(())
}

fn minus_zero_in_a_file(rt: &impl Print) -> io::Result<()> {
    tell::call(rt, "case j")?;
    let mut corners = square_corners();
    corners[0] = at(1.0, -0.0, 0.0, -0.0, 0.0);
    let s = region::build(corners, 4, ContainsSouthPoleMethod::Default).region;
    let mut file: [u8; 176] = [0; 176];
    let _ = region_file::write(s, &mut file);
    tell::bytes(rt, &file[8..16])?;
    let read = region_file::read(&file);
    let r = read.region;
    let corner = r.vertices[0];
    tell::answer(rt, corner)?;
    tell::answer(rt, corner.lon)?;
    Ok(())
}

fn main(rt: HostRuntime) -> io::Result<()> {
    region_build(&rt)?;
    region_build_flagged(&rt)?;
    region_empty(&rt)?;
    region_refused(&rt)?;
    region_draw_edges(&rt)?;
    region_contains(&rt)?;
    region_seam_count(&rt)?;
    region_contains_south_pole(&rt)?;
    region_check_rule(&rt)?;
    region_edge_normal(&rt)?;
    region_is_in_lon_range(&rt)?;
    region_crosses_seam(&rt)?;
    region_is_counted(&rt)?;
    region_edges(&rt)?;
    edge_new(&rt)?;
    edge_crosses_seam(&rt)?;
    edge_is_in_range(&rt)?;
    edge_is_counted(&rt)?;
    cost_contains_with_range_count(&rt)?;
    cost_costliest_outline(&rt)?;
    edits_put(&rt)?;
    edits_insert(&rt)?;
    edits_remove(&rt)?;
    edits_turn(&rt)?;
    edits_hold(&rt)?;
    edits_hold_lent(&rt)?;
    lending_hold_on_lent(&rt)?;
    edits_rule(&rt)?;
    great_circles_intersect_great_circle_arc(&rt)?;
    great_circles_intersect_great_circle_arc_all(&rt)?;
    great_circles_is_intersecting_great_circle_arc(&rt)?;
    great_circles_intersect_great_circle_all(&rt)?;
    parallels_intersect_parallel(&rt)?;
    parallels_intersect_parallel_all(&rt)?;
    parallels_first_is_not_head(&rt)?;
    parallels_is_intersecting_parallel(&rt)?;
    zone_new(&rt)?;
    zone_dlon(&rt)?;
    zone_crossed_vertically(&rt)?;
    zone_crossed_horizontally(&rt)?;
    zone_is_lon_range_compatible(&rt)?;
    zone_contains(&rt)?;
    zone_contains_exclusive(&rt)?;
    zone_vertices(&rt)?;
    cone_bounding_cone(&rt)?;
    region_file_read_trailer(&rt)?;
    region_file_read_straight(&rt)?;
    region_file_read(&rt)?;
    region_file_read_behind_a_front(&rt)?;
    region_file_write(&rt)?;
    region_file_set_flag(&rt)?;
    coo3d_dot_product(&rt)?;
    coo3d_cross_product(&rt)?;
    coo3d_squared_norm_of(&rt)?;
    coo3d_is_unit_from_norm(&rt)?;
    coo3d_coo3d_origin(&rt)?;
    coo3d_coo3d_to_vect3(&rt)?;
    coo3d_vect3_zero(&rt)?;
    coo3d_vect3_squared_norm(&rt)?;
    coo3d_vect3_norm(&rt)?;
    coo3d_vect3_opposite(&rt)?;
    coo3d_vect3_squared_euclidean_dist(&rt)?;
    coo3d_vect3_normalized(&rt)?;
    coo3d_unit_new(&rt)?;
    coo3d_unit_opposite(&rt)?;
    coo3d_unit_is_finite(&rt)?;
    coo3d_unit_to_vect3(&rt)?;
    domain_check_point(&rt)?;
    domain_check_vector(&rt)?;
    domain_check_points(&rt)?;
    domain_check_count(&rt)?;
    root_sqrt(&rt)?;
    root_whole_root(&rt)?;
    float_abs(&rt)?;
    float_is_finite(&rt)?;
    float_max(&rt)?;
    float_within(&rt)?;
    float_within_half_open(&rt)?;
    float_from_bits(&rt)?;
    float_to_bits(&rt)?;
    crossings_no_points(&rt)?;
    crossings_refused(&rt)?;
    crossings_test_finite(&rt)?;
    crossings_is_intersecting(&rt)?;
    crossings_first_crossing(&rt)?;
    crossings_all_crossings(&rt)?;
    refusal_number(&rt)?;
    refusal_decide(&rt)?;
    meridian_of_a_corner(&rt)?;
    range_of_half_a_turn(&rt)?;
    edge_of_half_a_turn(&rt)?;
    equal_longitudes(&rt)?;
    longitude_of_a_whole_turn(&rt)?;
    insert_at_the_count(&rt)?;
    two_puts(&rt)?;
    holds_in_a_row(&rt)?;
    roots_beside_one(&rt)?;
    north_edges(&rt)?;
    minus_zero_in_a_file(&rt)
}
