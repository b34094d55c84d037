// The worked rings of docs/POLES.md, in its order: what they print is crates/rings/stdout, and tests/manual holds the page to both.
// A point's five numbers were worked out beforehand from degrees of longitude and latitude, eastward and northward, and each was rounded once: cos(lat) cos(lon),
// cos(lat) sin(lon), sin(lat), and the two angles in radians. There is no sine here.
#![tactic(auto)]

use coo3d::Coo3D;
use region::{ContainsSouthPoleMethod, Region};
use std::io;
use tell::{at, corners_of};

// Twelve corners along a parallel, from longitude 0 on every 30 degrees. But for the sign, x and y are c and 0, or a and b: cos(lat), cos(lat) cos(30) and
// cos(lat) sin(30).
fn ring(c: f64, a: f64, b: f64, z: f64, lat: f64) -> [Coo3D; 12] {
    [
        at(c, 0.0, z, 0.0, lat),
        at(a, b, z, 0.5235987755982989, lat),
        at(b, a, z, 1.0471975511965979, lat),
        at(0.0, c, z, 1.5707963267948966, lat),
        at(-b, a, z, 2.0943951023931957, lat),
        at(-a, b, z, 2.6179938779914944, lat),
        at(-c, 0.0, z, 3.141592653589793, lat),
        at(-a, -b, z, 3.6651914291880923, lat),
        at(-b, -a, z, 4.188790204786391, lat),
        at(0.0, -c, z, 4.71238898038469, lat),
        at(b, -a, z, 5.235987755982989, lat),
        at(a, -b, z, 5.759586531581288, lat),
    ]
}

// 60 S
fn south_ring() -> [Coo3D; 12] {
    ring(
        0.5,
        0.4330127018922193,
        0.25,
        -0.8660254037844386,
        -1.0471975511965979,
    )
}

// 70 N
fn north_ring() -> [Coo3D; 12] {
    ring(
        0.3420201433256687,
        0.29619813272602386,
        0.17101007166283436,
        0.9396926207859084,
        1.2217304763960306,
    )
}

// 352, -50; 10, -49; 16, -56; 4, -61; 350, -58: the water round Bouvet Island, on both sides of the meridian 0.
fn island_ring() -> [Coo3D; 5] {
    [
        at(
            0.6365320448552996,
            -0.08945874489878387,
            -0.766044443118978,
            6.14355896702004,
            -0.8726646259971648,
        ),
        at(
            0.6460920181835126,
            0.11392345482613742,
            -0.754709580222772,
            0.17453292519943295,
            -0.8552113334772214,
        ),
        at(
            0.5375307187469627,
            0.1541344533043071,
            -0.8290375725550417,
            0.2792526803190927,
            -0.9773843811168246,
        ),
        at(
            0.48362864837786324,
            0.033818609545612964,
            -0.8746197071393959,
            0.06981317007977318,
            -1.064650843716541,
        ),
        at(
            0.5218685998873851,
            -0.09201951454469658,
            -0.848048096156426,
            6.1086523819801535,
            -1.0122909661567112,
        ),
    ]
}

// The half of the ring along 60 S that lies west of Greenwich: 0, 330 and so on to 180. The edge from 180 back to 0 runs over the south pole.
fn western_half() -> [Coo3D; 7] {
    let ring = south_ring();
    [
        ring[0], ring[11], ring[10], ring[9], ring[8], ring[7], ring[6],
    ]
}

// The same corners the other way round.
fn western_half_back() -> [Coo3D; 7] {
    let mut corners = western_half();
    corners.reverse();
    corners
}

// 45, -80
fn near_south() -> Coo3D {
    at(
        0.12278780396897285,
        0.12278780396897285,
        -0.984807753012208,
        0.7853981633974483,
        -1.3962634015954636,
    )
}

// 45, -30
fn far_south() -> Coo3D {
    at(
        0.6123724356957945,
        0.6123724356957945,
        -0.5,
        0.7853981633974483,
        -0.5235987755982989,
    )
}

fn south_pole(lon: f64) -> Coo3D {
    at(0.0, 0.0, -1.0, lon, -1.5707963267948966)
}

fn north_pole(lon: f64) -> Coo3D {
    at(0.0, 0.0, 1.0, lon, 1.5707963267948966)
}

// Prints a place, and whether it is filmed.
fn ask(rt: &impl Print, place: &str, r: Region, p: Coo3D) -> io::Result<()> {
    print!(rt; "{place}")?;
    tell::answer(rt, region::contains(r, p))?;
    Ok(())
}

fn poles(rt: &impl Print, r: Region) -> io::Result<()> {
    print!(rt; "  seam count")?;
    tell::answer(rt, region::seam_count(r))?;
    ask(rt, "  south pole", r, south_pole(0.0))?;
    ask(rt, "  north pole", r, north_pole(0.0))?;
    Ok(())
}

fn sides(rt: &impl Print, r: Region) -> io::Result<()> {
    ask(rt, "  80 S      ", r, near_south())?;
    ask(rt, "  30 S      ", r, far_south())?;
    Ok(())
}

// Builds a region and prints its corner count and flag.
fn by_rule(
    rt: &impl Print,
    name: &str,
    corners: &[Coo3D],
    rule: ContainsSouthPoleMethod,
) -> io::Result<Region> {
    tell::call(rt, name)?;
    let built = region::build(corners_of(corners), corners.len(), rule);
    tell::answer(rt, built)?;
    Ok(built.region)
}

fn by_default(rt: &impl Print, name: &str, corners: &[Coo3D]) -> io::Result<Region> {
    by_rule(rt, name, corners, ContainsSouthPoleMethod::Default)
}

fn round_the_south_pole(rt: &impl Print) -> io::Result<()> {
    let r = by_default(rt, "along 60 S", &south_ring())?;
    poles(rt, r)?;
    sides(rt, r)?;
    let mut file: [u8; 496] = [0; 496];
    let _ = region_file::write(r, &mut file);
    print!(rt; "  trailer   ")?;
    tell::bytes(rt, &file[480..496])?;
    Ok(())
}

fn round_the_north_pole(rt: &impl Print) -> io::Result<()> {
    // 45, 80 and 45, 30
    let near = at(
        0.12278780396897285,
        0.12278780396897285,
        0.984807753012208,
        0.7853981633974483,
        1.3962634015954636,
    );
    let far = at(
        0.6123724356957945,
        0.6123724356957945,
        0.5,
        0.7853981633974483,
        0.5235987755982989,
    );
    let r = by_default(rt, "along 70 N", &north_ring())?;
    poles(rt, r)?;
    ask(rt, "  80 N      ", r, near)?;
    ask(rt, "  30 N      ", r, far)?;
    Ok(())
}

fn round_neither_pole(rt: &impl Print) -> io::Result<()> {
    // 3.4, -54.4 and 323.5, -54.3
    let bouvet = at(
        0.5810983335602837,
        0.03452360233529657,
        -0.8131007610470277,
        0.059341194567807204,
        -0.9494591130849153,
    );
    let south_georgia = at(
        0.4690836062014967,
        -0.34710360952309927,
        -0.8120835268918062,
        5.6461401302016565,
        -0.9477137838329209,
    );
    let r = by_default(rt, "round Bouvet Island", &island_ring())?;
    poles(rt, r)?;
    ask(rt, "  Bouvet    ", r, bouvet)?;
    ask(rt, "  S. Georgia", r, south_georgia)?;
    Ok(())
}

fn south_by_rule(rt: &impl Print, name: &str, rule: ContainsSouthPoleMethod) -> io::Result<()> {
    let r = by_rule(rt, name, &south_ring(), rule)?;
    ask(rt, "  south pole", r, south_pole(0.0))?;
    sides(rt, r)?;
    Ok(())
}

fn rules(rt: &impl Print) -> io::Result<()> {
    let p = near_south();
    let rules = [
        ("Default", ContainsSouthPoleMethod::Default),
        (
            "DefaultComplement",
            ContainsSouthPoleMethod::DefaultComplement,
        ),
        (
            "ContainsSouthPole",
            ContainsSouthPoleMethod::ContainsSouthPole,
        ),
        (
            "DoNotContainsSouthPole",
            ContainsSouthPoleMethod::DoNotContainsSouthPole,
        ),
        (
            "ControlPointIn, 80 S",
            ContainsSouthPoleMethod::ControlPointIn(p),
        ),
        (
            "ControlPointOut, 80 S",
            ContainsSouthPoleMethod::ControlPointOut(p),
        ),
    ];
    for (name, rule) in rules {
        south_by_rule(rt, name, rule)?;
    }
    Ok(())
}

fn corner_over_the_pole(rt: &impl Print) -> io::Result<()> {
    // 180, -70 and 180, -65
    let corner = at(
        -0.3420201433256687,
        0.0,
        -0.9396926207859084,
        3.141592653589793,
        -1.2217304763960306,
    );
    let p = at(
        -0.42261826174069944,
        0.0,
        -0.9063077870366499,
        3.141592653589793,
        -1.1344640137963142,
    );
    let r = by_default(rt, "along 60 S", &south_ring())?;
    ask(rt, "  65 S      ", r, p)?;
    tell::call(rt, "corner 0 put beyond the pole")?;
    let edited = edits::put(r, 0, corner);
    tell::answer(rt, edited)?;
    let moved = edited.region;
    poles(rt, moved)?;
    sides(rt, moved)?;
    ask(rt, "  65 S      ", moved, p)?;
    tell::call(rt, "65 S held")?;
    let held = edits::hold(moved, p);
    tell::answer(rt, held)?;
    let set_right = held.region;
    sides(rt, set_right)?;
    ask(rt, "  65 S      ", set_right, p)?;
    Ok(())
}

// 255, -80
fn west() -> Coo3D {
    at(
        -0.04494345552754778,
        -0.16773125949652062,
        -0.984807753012208,
        4.4505895925855405,
        -1.3962634015954636,
    )
}

// Both sides of the pole: 80 S in the half that is meant, and two places and the north pole in the other.
fn halves(rt: &impl Print, r: Region) -> io::Result<()> {
    // 90, -80; 90, -30
    let east = at(
        0.0,
        0.17364817766693036,
        -0.984807753012208,
        1.5707963267948966,
        -1.3962634015954636,
    );
    let far_east = at(
        0.0,
        0.8660254037844386,
        -0.5,
        1.5707963267948966,
        -0.5235987755982989,
    );
    print!(rt; "  seam count")?;
    tell::answer(rt, region::seam_count(r))?;
    ask(rt, "  south pole", r, south_pole(0.0))?;
    ask(rt, "  80 S 105 W", r, west())?;
    ask(rt, "  80 S  90 E", r, east)?;
    ask(rt, "  30 S  90 E", r, far_east)?;
    ask(
        rt,
        "  north pole, asked at 105 W",
        r,
        north_pole(4.4505895925855405),
    )?;
    ask(
        rt,
        "  north pole, asked at  90 E",
        r,
        north_pole(1.5707963267948966),
    )?;
    Ok(())
}

fn edge_over_the_pole(rt: &impl Print) -> io::Result<()> {
    // 90, -89 and 270, -89
    let beyond = at(
        0.0,
        0.01745240643728351,
        -0.9998476951563913,
        1.5707963267948966,
        -1.5533430342749532,
    );
    let before = at(
        0.0,
        -0.01745240643728351,
        -0.9998476951563913,
        4.71238898038469,
        -1.5533430342749532,
    );
    let r = by_default(rt, "the western half", &western_half())?;
    halves(rt, r)?;
    let back = by_default(rt, "the same corners back", &western_half_back())?;
    halves(rt, back)?;
    tell::call(
        rt,
        "the western half with the pole: a corner put in at 89 S 90 E",
    )?;
    let with_pole = edits::insert(r, 0, beyond);
    tell::answer(rt, with_pole)?;
    halves(rt, with_pole.region)?;
    tell::call(
        rt,
        "the western half without the pole: a corner put in at 89 S 90 W",
    )?;
    let without = edits::insert(r, 0, before);
    tell::answer(rt, without)?;
    halves(rt, without.region)?;
    tell::call(rt, "80 S 105 W held")?;
    let held = edits::hold(without.region, west());
    tell::answer(rt, held)?;
    halves(rt, held.region)?;
    Ok(())
}

fn main(rt: HostRuntime) -> io::Result<()> {
    round_the_south_pole(&rt)?;
    round_the_north_pole(&rt)?;
    round_neither_pole(&rt)?;
    rules(&rt)?;
    corner_over_the_pole(&rt)?;
    edge_over_the_pole(&rt)
}
