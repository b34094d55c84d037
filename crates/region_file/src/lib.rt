// The region file, edition 1: document 01, 'Region file'. Upstream has none.
#![tactic(auto)]

ghost use Rattle.std.specs.Prelude.{◌≡◌, true, false, ◌+◌, ◌*◌, ◌^◌, ◌≤◌, ◌<◌, length, take, drop, is_nan, [], ◌∷◌};
ghost use Rattle.std.proofs.lemmas.List.Edits.{sets};
ghost use Rattle.refusal.specs.Answer.{answered, refuse_if, outcome_of, verdict, answer_of};
ghost use Rattle.domain.specs.Checks.{point_at, points_from};
ghost use Rattle.region.specs.View.{view_of, empty};
ghost use Rattle.region.specs.Region.{Builds};
ghost use Rattle.region_file.specs.Bytes.{number_at, bytes_of, double_at, corner_at, corners_at, double_bytes, corner_bytes};
ghost use Rattle.region_file.specs.File.{file_length, trailer_of, read_of, trailer_bytes, write_of, output_of, with_flag_field};

use coo3d::Coo3D;
use refusal::Cause;
use region::{Built, Region};

// What a trailer that was accepted says.
#[derive(Clone, Copy)]
pub struct Trailer {
    pub flag: bool,
    pub count: usize,
}

// `N` bytes, copied out. Here and below bytes are named by the file and a place in it, as the definitions name them: of a slice that was cut out first, each contract
// would ask for a length, where it asks for room behind the place.
fn bytes_at<const N: usize>(s: &[u8], at: usize) -> [u8; N]
    requires { at + N ≤ length s.now }
    ensures { result ≡ take N (drop at s.now) }
{
    let mut bytes = [0; N];
    bytes.copy_from_slice(&s[at..at + N]);
    bytes
}

fn u32_at(s: &[u8], at: usize) -> u32
    requires { at + 4 ≤ length s.now }
    ensures { result ≡ number_at 4 s.now at }
{
    u32::from_le_bytes(bytes_at(s, at))
}

fn double_at(s: &[u8], at: usize) -> f64
    requires { at + 8 ≤ length s.now }
    ensures { result ≡ double_at s.now at }
{
    float::from_bits(u64::from_le_bytes(bytes_at(s, at)))
}

fn corner_at(s: &[u8], at: usize) -> Coo3D
    requires { at + 40 ≤ length s.now }
    ensures { result ≡ corner_at s.now at }
{
    Coo3D {
        x: double_at(s, at),
        y: double_at(s, at + 8),
        z: double_at(s, at + 16),
        lon: double_at(s, at + 24),
        lat: double_at(s, at + 32),
    }
}

// All corners, copied out: an array whose first `count` they are, since there is no heap. `check_count` gave a count of at most 64.
fn corners_at(s: &[u8], at: usize, count: usize) -> [Coo3D; 64]
    requires { (count ≤ 64) × (at + 40 * count ≤ length s.now) }
    ensures { take count result ≡ corners_at s.now at count }
{
    let mut corners = [Coo3D::origin(); 64];
    for i in 0..count {
        corners[i] = corner_at(s, at + 40 * i);
    }
    corners
}

// A file's length without a maker's own bytes in front.
fn file_length(count: usize) -> usize
    requires { count < 2 ^ 32 }
    ensures { result ≡ file_length count }
{
    40 * count + 16
}

// The trailer's fields, tested in their order.
pub fn read_trailer(file: &[u8]) -> Result<Trailer, Cause>
    ensures { answer_of result ≡ trailer_of file.now }
{
    let len = file.len();
    let at = len.checked_sub(16).ok_or(Cause::WrongTrailer)?;
    let edition = u32_at(file, at);
    let flag = u32_at(file, at + 4);
    let count = u32_at(file, at + 8) as usize;
    let distance = u32_at(file, at + 12) as usize;
    if edition != 1 || flag > 1 {
        return Err(Cause::WrongTrailer);
    }
    domain::check_count(count)?;
    let whole = file_length(count);
    if distance != whole || len < whole {
        return Err(Cause::WrongTrailer);
    }
    Ok(Trailer {
        flag: flag == 1,
        count,
    })
}

// Copies all corners out, then builds.
pub fn read(file: &[u8]) -> Built
    ensures { Builds result (read_of file.now) }
{
    match read_trailer(file) {
        Err(cause) => region::refused(cause),
        Ok(Trailer { flag, count }) => {
            let corners = corners_at(file, file.len() - file_length(count), count);
            region::build_flagged(corners, count, flag)
        }
    }
}

// The double whose bytes begin there, of the corner of that index. A pattern above that of infinity, its sign left out, is a NaN's, which never passes the point check: it is
// refused at once. `double_at` has to choose, for every double, between a NaN and the number, which takes longer.
fn checked_double_at(s: &[u8], at: usize, index: usize) -> Result<f64, Cause>
    requires { at + 8 ≤ length s.now }
    ensures { answer_of result ≡ refuse_if (is_nan (double_at s.now at)) 1 (index ∷ []) (answered (double_at s.now at)) }
{
    let bits = u64::from_le_bytes(bytes_at(s, at));
    if bits % 0x8000_0000_0000_0000 > 0x7FF0_0000_0000_0000 {
        return Err(Cause::OutsideDomain(index));
    }
    Ok(float::from_bits(bits))
}

// The corner of that index, whose bytes begin there, as the point check hands it back.
fn checked_corner_at(s: &[u8], at: usize, index: usize) -> Result<Coo3D, Cause>
    requires { at + 40 ≤ length s.now }
    ensures { answer_of result ≡ point_at index (corner_at s.now at) }
{
    let p = Coo3D {
        x: checked_double_at(s, at, index)?,
        y: checked_double_at(s, at + 8, index)?,
        z: checked_double_at(s, at + 16, index)?,
        lon: checked_double_at(s, at + 24, index)?,
        lat: checked_double_at(s, at + 32, index)?,
    };
    domain::check_point(p, index)
}

// All corners as the point check hands them back, each from its bytes to its place; a refusal has the lowest bad one's index.
fn checked_corners_at(
    corners: &mut [Coo3D; 64],
    s: &[u8],
    at: usize,
    count: usize,
) -> Result<(), Cause>
    requires { (count ≤ 64) × (at + 40 * count ≤ length s.now) }
    ensures { outcome_of result (take count corners.new) ≡ points_from 0 (corners_at s.now at count) }
{
    for i in 0..count {
        corners[i] = checked_corner_at(s, at + 40 * i, i)?;
    }
    Ok(())
}

// Builds the file's region in an empty one. Its corners are counted once all have passed, so that a refusal leaves it empty. The normals and the seam count are taken in a
// pass of their own, by `draw_edges`, as in a build.
fn read_into(region: &mut Region, file: &[u8]) -> Result<(), Cause>
    requires { view_of region.old ≡ empty false }
    ensures { Builds (record { region = region.new; outcome = result }) (read_of file.now) }
{
    let Trailer { flag, count } = read_trailer(file)?;
    let at = file.len() - file_length(count);
    checked_corners_at(&mut region.vertices, file, at, count)?;
    region.count = count;
    region.contains_south_pole = flag;
    region::draw_edges(region)
}

// Builds straight from the bytes, and answers what `read` does: there is no array of corners but the region's own. Inlined, since its region is then made in the place that the
// caller has for the answer, and not copied there.
#[inline(always)]
pub fn read_straight(file: &[u8]) -> Built
    ensures { Builds result (read_of file.now) }
{
    let mut built = Built {
        region: region::empty(),
        outcome: Ok(()),
    };
    built.outcome = read_into(&mut built.region, file);
    built
}

// The number's lowest `N` bytes, stored from `at` on.
fn put_number<const N: usize>(s: &mut [u8], at: usize, n: u128)
    requires { (N ≤ 16) × (at + N ≤ length s.old) }
    ensures { s.new ≡ sets s.old at (bytes_of N n) }
{
    s[at..at + N].copy_from_slice(&n.to_le_bytes()[..N]);
}

fn put_double(s: &mut [u8], at: usize, x: f64)
    requires { at + 8 ≤ length s.old }
    ensures { s.new ≡ sets s.old at (double_bytes x) }
{
    s[at..at + 8].copy_from_slice(&float::to_bits(x).to_le_bytes());
}

fn put_corner(s: &mut [u8], at: usize, p: Coo3D)
    requires { at + 40 ≤ length s.old }
    ensures { s.new ≡ sets s.old at (corner_bytes p) }
{
    put_double(s, at, p.x);
    put_double(s, at + 8, p.y);
    put_double(s, at + 16, p.z);
    put_double(s, at + 24, p.lon);
    put_double(s, at + 32, p.lat);
}

// Of a count of at most 64, so that the length fits its four bytes.
fn put_trailer(s: &mut [u8], at: usize, flag: bool, count: usize)
    requires { (count ≤ 64) × (at + 16 ≤ length s.old) }
    ensures { s.new ≡ sets s.old at (trailer_bytes flag count) }
{
    put_number::<4>(s, at, 1);
    put_number::<4>(s, at + 4, flag as u128);
    put_number::<4>(s, at + 8, count as u128);
    put_number::<4>(s, at + 12, file_length(count) as u128);
}

// Fills the front of the output and touches no later byte.
pub fn write(r: Region, out: &mut [u8]) -> Result<usize, Cause>
    ensures answer { answer_of result ≡ write_of (view_of r) (length out.old) }
    ensures out_after { out.new ≡ output_of (view_of r) out.old }
{
    let count = r.count;
    domain::check_count(count)?;
    let needed = file_length(count);
    if out.len() < needed {
        return Err(Cause::ShortOutput(needed));
    }
    for i in 0..count {
        put_corner(out, 40 * i, r.vertices[i]);
    }
    put_trailer(out, 40 * count, r.contains_south_pole, count);
    Ok(needed)
}

// Sets the flag field in place; a trailer that is refused leaves every byte.
pub fn set_flag(file: &mut [u8], flag: bool) -> Result<(), Cause>
    ensures answer { outcome_of result true ≡ verdict (trailer_of file.old) }
    ensures file_after { file.new ≡ with_flag_field file.old flag }
{
    match read_trailer(file) {
        Err(cause) => Err(cause),
        Ok(_) => {
            let at = file.len() - 12;
            put_number::<4>(file, at, flag as u128);
            Ok(())
        }
    }
}
