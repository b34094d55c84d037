// The loops that `make bench` times. Each calls one public function once for each entry of a slice, as a program would, and answers a checksum
// of what it was answered, which the benchmark holds to upstream's. They are no calls of the product: no contract says what they answer, and
// what is proved of them is that they are safe and end. The benchmark's driver calls each by its name, so that each writes out its parameters, and
// hands over plain numbers: points and vectors are fives and threes in a slice, a flag and a rule are words.
#![tactic(auto)]

ghost use Rattle.std.specs.Prelude.{◌≤◌, ◌<◌, length};

use coo3d::{Coo3D, UnitVect3, Vect3};
use crossings::AllAnswer;
use edits::EditAnswer;
use refusal::Cause;
use region::{Built, ContainsSouthPoleMethod, Region};
use root::WholeRoot;
use zone::Zone;

// What goes into a checksum.
trait Mix {
    fn mix_into(self, sum: u64) -> u64;
}

// The sum goes round one bit, so that the order counts.
impl Mix for u64 {
    fn mix_into(self, sum: u64) -> u64 {
        sum.rotate_left(1) ^ self
    }
}

impl Mix for usize {
    fn mix_into(self, sum: u64) -> u64 {
        (self as u64).mix_into(sum)
    }
}

impl Mix for bool {
    fn mix_into(self, sum: u64) -> u64 {
        (self as u64).mix_into(sum)
    }
}

impl Mix for f64 {
    fn mix_into(self, sum: u64) -> u64 {
        float::to_bits(self).mix_into(sum)
    }
}

impl Mix for () {
    fn mix_into(self, sum: u64) -> u64 {
        false.mix_into(sum)
    }
}

impl<T: Mix, U: Mix> Mix for (T, U) {
    fn mix_into(self, sum: u64) -> u64 {
        self.1.mix_into(self.0.mix_into(sum))
    }
}

impl<T: Mix, U: Mix, V: Mix> Mix for (T, U, V) {
    fn mix_into(self, sum: u64) -> u64 {
        self.2.mix_into(self.1.mix_into(self.0.mix_into(sum)))
    }
}

impl Mix for UnitVect3 {
    fn mix_into(self, sum: u64) -> u64 {
        (self.x, self.y, self.z).mix_into(sum)
    }
}

impl Mix for Vect3 {
    fn mix_into(self, sum: u64) -> u64 {
        (self.x, self.y, self.z).mix_into(sum)
    }
}

impl<T: Mix> Mix for Option<T> {
    fn mix_into(self, sum: u64) -> u64 {
        match self {
            Some(answer) => answer.mix_into(true.mix_into(sum)),
            None => false.mix_into(sum),
        }
    }
}

impl<T: Mix> Mix for Result<T, Cause> {
    fn mix_into(self, sum: u64) -> u64 {
        match self {
            Ok(answer) => answer.mix_into(sum),
            Err(cause) => (16 + refusal::number(cause) % 16).mix_into(sum),
        }
    }
}

// An answer of which a refusal goes in by its number as it is, without the 16 that tells it from a yes or a no.
struct Numbered<T>(Result<T, Cause>);

impl<T: Mix> Mix for Numbered<T> {
    fn mix_into(self, sum: u64) -> u64 {
        let Numbered(answer) = self;
        match answer {
            Ok(value) => value.mix_into(sum),
            Err(cause) => refusal::number(cause).mix_into(sum),
        }
    }
}

impl Mix for Zone {
    fn mix_into(self, sum: u64) -> u64 {
        (self.lat_max, self.cross_primary_meridian).mix_into(sum)
    }
}

// Of a list its length and a fixed entry, which is zero where the list is empty: to go through it, a caller copies it.
impl Mix for AllAnswer {
    fn mix_into(self, sum: u64) -> u64 {
        let outcome = self.outcome;
        match outcome {
            Err(_) => outcome.mix_into(sum),
            Ok(()) => {
                let crossings = self.crossings;
                let points = crossings.points;
                (crossings.len, points[0]).mix_into(sum)
            }
        }
    }
}

// Of a region that was made: its flag, how many edges cross the seam, and a fixed entry: an index would have the caller copy the region.
impl Mix for Built {
    fn mix_into(self, sum: u64) -> u64 {
        let outcome = self.outcome;
        let region = self.region;
        let flagged = (outcome, region.contains_south_pole).mix_into(sum);
        (region.seam_count, region.cross_products[0]).mix_into(flagged)
    }
}

// Entry i of a slice, and zeros past its end.
fn triple_at(s: &[f64], i: usize) -> Vect3 {
    if i < s.len() / 3 {
        Vect3 {
            x: s[3 * i],
            y: s[3 * i + 1],
            z: s[3 * i + 2],
        }
    } else {
        Vect3::zero()
    }
}

fn point_at(s: &[f64], i: usize) -> Coo3D {
    if i < s.len() / 5 {
        Coo3D {
            x: s[5 * i],
            y: s[5 * i + 1],
            z: s[5 * i + 2],
            lon: s[5 * i + 3],
            lat: s[5 * i + 4],
        }
    } else {
        Coo3D::origin()
    }
}

// By an index, here and below: by `iter_mut` the loops took 10 KB more stack on the Cortex-M0, whose memory is fixed.
fn corners_of(s: &[f64]) -> [Coo3D; 64] {
    let mut corners = [Coo3D::origin(); 64];
    for i in 0..64 {
        let p = point_at(s, i);
        corners[i] = p;
    }
    corners
}

// A region by its fields, so that no build is measured with a call.
fn region_of(corners: &[f64], normals: &[f64], flag: u64) -> Region {
    let mut region = region::empty();
    region.count = corners.len() / 5;
    region.contains_south_pole = flag == 1;
    for i in 0..64 {
        let p = point_at(corners, i);
        let n = triple_at(normals, i);
        region.vertices[i] = p;
        region.cross_products[i] = n;
    }
    region
}

// The index after k.
fn next(k: usize, count: usize) -> usize
    requires { k < 64 }
    ensures { result < 64 }
{
    if k + 1 < count && k + 1 < 64 {
        k + 1
    } else {
        0
    }
}

// The checksum of what `ask` answers to each of the numbers below n.
fn sum_of<A: Mix, F: FnMut(usize) -> A>(n: usize, mut ask: F) -> u64
    requires { F.IsAlwaysCallable ask }
{
    let mut sum: u64 = 0;
    for i in 0..n {
        sum = ask(i).mix_into(sum);
    }
    sum
}

// The same, with the point of that number. It and the next have loops of their own: over `sum_of` a zone took a fifth more instructions.
fn sum_over_points<A: Mix, F: Fn(Coo3D) -> A>(points: &[f64], ask: F) -> u64
    requires { F.IsAlwaysCallable ask }
{
    let mut sum: u64 = 0;
    for i in 0..points.len() / 5 {
        let p = point_at(points, i);
        sum = ask(p).mix_into(sum);
    }
    sum
}

// The same, with an arc from that point to the end of that number.
fn sum_over_arcs<A: Mix, F: Fn(Coo3D, Coo3D) -> A>(points: &[f64], ends: &[f64], ask: F) -> u64
    requires { F.IsAlwaysCallable ask }
{
    let mut sum: u64 = 0;
    for i in 0..points.len() / 5 {
        let a = point_at(points, i);
        let b = point_at(ends, i);
        sum = ask(a, b).mix_into(sum);
    }
    sum
}

// The same, with the triple of that number.
fn sum_over_triples<A: Mix, F: Fn(Vect3) -> A>(triples: &[f64], ask: F) -> u64
    requires { F.IsAlwaysCallable ask }
{
    sum_of(triples.len() / 3, |i| ask(triple_at(triples, i)))
}

// The same of corners of which one is another point each time.
fn sum_over_moved<A: Mix, F: Fn([Coo3D; 64], usize) -> A>(
    corners: &[f64],
    points: &[f64],
    ask: F,
) -> u64
    requires { F.IsAlwaysCallable ask }
{
    let count = corners.len() / 5;
    let mut given = corners_of(corners);
    let mut k: usize = 0;
    let mut sum: u64 = 0;
    for i in 0..points.len() / 5 {
        given[k] = point_at(points, i);
        sum = ask(given, count).mix_into(sum);
        k = next(k, count);
    }
    sum
}

// The same of edits at the number and at an index. Of what an edit answers a fixed entry is read, as of what was built.
fn sum_over_edits<F: Fn(usize, usize) -> EditAnswer>(n: usize, edit: F) -> u64
    requires { F.IsAlwaysCallable edit }
{
    let mut k: usize = 0;
    let mut sum: u64 = 0;
    for i in 0..n {
        let answer = edit(i, k);
        let outcome = answer.outcome;
        let edited = answer.region;
        sum = (outcome, edited.contains_south_pole).mix_into(sum);
        sum = (edited.seam_count, edited.cross_products[0]).mix_into(sum);
        k = next(k, edited.count);
    }
    sum
}

// The same of edits that change the flag alone. One entry is read by its index, for which the caller copies the region: the edit's own copy would be
// left out otherwise, since it is never looked at.
fn sum_over_flags<F: Fn(usize) -> EditAnswer>(n: usize, edit: F) -> u64
    requires { F.IsAlwaysCallable edit }
{
    let mut k: usize = 0;
    let mut sum: u64 = 0;
    for i in 0..n {
        let answer = edit(i);
        let outcome = answer.outcome;
        let edited = answer.region;
        sum = (
            outcome,
            edited.contains_south_pole,
            edited.cross_products[k],
        )
            .mix_into(sum);
        k = next(k, edited.count);
    }
    sum
}

// What is looked at of an edit of the flag: of its region a fixed entry, as of what was built.
fn flag_answer(answer: EditAnswer) -> (Result<(), Cause>, bool, Vect3) {
    let edited = answer.region;
    (
        answer.outcome,
        edited.contains_south_pole,
        edited.cross_products[0],
    )
}

fn rule_of(number: u64, control_point: Coo3D) -> ContainsSouthPoleMethod {
    if number == 4 {
        ContainsSouthPoleMethod::ControlPointIn(control_point)
    } else {
        ContainsSouthPoleMethod::Default
    }
}

// What the loops over a region do beside their calls: a loop of its own, since no call answers it. Its entries are read, so that it is kept as theirs is.
#[unsafe(no_mangle)]
pub extern "C" fn bench_idle_region(
    corners: &[f64],
    normals: &[f64],
    flag: u64,
    points: &[f64],
) -> u64 {
    let region = region_of(corners, normals, flag);
    let mut k: usize = 0;
    let mut sum: u64 = 0;
    let n = points.len() / 5;
    for i in 0..n {
        let p = point_at(points, i);
        let q = region.vertices[k];
        let v = region.cross_products[k];
        sum = (v, p.x + q.x).mix_into(sum);
        k = next(k, region.count);
    }
    region.contains_south_pole.mix_into(sum)
}

// The same of those that hand points over; its entry is read at the next index, so that none of the loops above fits.
#[unsafe(no_mangle)]
pub extern "C" fn bench_idle_corners(corners: &[f64], points: &[f64]) -> u64 {
    let count = corners.len() / 5;
    let mut given = corners_of(corners);
    let mut k: usize = 0;
    let mut sum: u64 = 0;
    let n = points.len() / 5;
    for i in 0..n {
        let p = point_at(points, i);
        given[k] = p;
        k = next(k, count);
        let q = given[k];
        sum = q.x.mix_into(sum);
    }
    sum
}

#[unsafe(no_mangle)]
pub extern "C" fn bench_contains(
    corners: &[f64],
    normals: &[f64],
    flag: u64,
    points: &[f64],
) -> u64 {
    let region = region_of(corners, normals, flag);
    sum_over_points(points, |p| region::contains(region, p))
}

// The same, and how many edges were in range.
#[unsafe(no_mangle)]
pub extern "C" fn bench_contains_counting(
    corners: &[f64],
    normals: &[f64],
    flag: u64,
    points: &[f64],
) -> u64 {
    let region = region_of(corners, normals, flag);
    sum_over_points(points, |p| {
        let ranged = cost::contains_with_range_count(region, p);
        (ranged.decision, ranged.in_range)
    })
}

// No loop: a number of the outline that costs most, a double as its bits. The corner behind the last one is the outline's point, and number 5
// how many edges are in range there.
#[unsafe(no_mangle)]
pub extern "C" fn bench_costliest_outline(count: usize, corner: usize, number: u64) -> u64 {
    let outline = cost::costliest_outline(count);
    let built = outline.built;
    let region = built.region;
    let mut p = outline.point;
    if corner < region.count && corner < 64 {
        p = region.vertices[corner];
    }
    if number == 5 {
        return cost::contains_with_range_count(region, outline.point).in_range as u64;
    }
    float::to_bits(
        *[p.x, p.y, p.z, p.lon]
            .get(number as usize)
            .unwrap_or(&p.lat),
    )
}

#[unsafe(no_mangle)]
pub extern "C" fn bench_arc_first(
    corners: &[f64],
    normals: &[f64],
    flag: u64,
    points: &[f64],
    ends: &[f64],
) -> u64 {
    let region = region_of(corners, normals, flag);
    sum_over_arcs(
        points,
        ends,
        |a, b| great_circles::intersect_great_circle_arc(region, a, b),
    )
}

#[unsafe(no_mangle)]
pub extern "C" fn bench_arc_all(
    corners: &[f64],
    normals: &[f64],
    flag: u64,
    points: &[f64],
    ends: &[f64],
) -> u64 {
    let region = region_of(corners, normals, flag);
    sum_over_arcs(
        points,
        ends,
        |a, b| great_circles::intersect_great_circle_arc_all(region, a, b),
    )
}

#[unsafe(no_mangle)]
pub extern "C" fn bench_circle_all(
    corners: &[f64],
    normals: &[f64],
    flag: u64,
    triples: &[f64],
) -> u64 {
    let region = region_of(corners, normals, flag);
    sum_over_triples(
        triples,
        |t| great_circles::intersect_great_circle_all(region, t),
    )
}

#[unsafe(no_mangle)]
pub extern "C" fn bench_parallel_first(
    corners: &[f64],
    normals: &[f64],
    flag: u64,
    triples: &[f64],
) -> u64 {
    let region = region_of(corners, normals, flag);
    sum_over_triples(
        triples,
        |t| parallels::intersect_parallel(region, t.x, t.y, t.z),
    )
}

#[unsafe(no_mangle)]
pub extern "C" fn bench_parallel_all(
    corners: &[f64],
    normals: &[f64],
    flag: u64,
    triples: &[f64],
) -> u64 {
    let region = region_of(corners, normals, flag);
    sum_over_triples(
        triples,
        |t| parallels::intersect_parallel_all(region, t.x, t.y, t.z),
    )
}

#[unsafe(no_mangle)]
pub extern "C" fn bench_build(corners: &[f64], points: &[f64]) -> u64 {
    sum_over_moved(
        corners,
        points,
        |given, count| region::build(given, count, ContainsSouthPoleMethod::Default),
    )
}

#[unsafe(no_mangle)]
pub extern "C" fn bench_cone(corners: &[f64], points: &[f64]) -> u64 {
    sum_over_moved(
        corners,
        points,
        |given, count| Numbered(cone::bounding_cone(given, count).map(|c| (c.d2_max, c.center))),
    )
}

// Every edit is of the same region.
#[unsafe(no_mangle)]
pub extern "C" fn bench_put(corners: &[f64], normals: &[f64], flag: u64, points: &[f64]) -> u64 {
    let region = region_of(corners, normals, flag);
    sum_over_edits(
        points.len() / 5,
        |i, k| edits::put(region, k, point_at(points, i)),
    )
}

#[unsafe(no_mangle)]
pub extern "C" fn bench_insert(corners: &[f64], normals: &[f64], flag: u64, points: &[f64]) -> u64 {
    let region = region_of(corners, normals, flag);
    sum_over_edits(
        points.len() / 5,
        |i, k| edits::insert(region, k, point_at(points, i)),
    )
}

#[unsafe(no_mangle)]
pub extern "C" fn bench_remove(corners: &[f64], normals: &[f64], flag: u64, n: usize) -> u64 {
    let region = region_of(corners, normals, flag);
    sum_over_edits(n, |_, k| edits::remove(region, k))
}

#[unsafe(no_mangle)]
pub extern "C" fn bench_turn(corners: &[f64], normals: &[f64], flag: u64, n: usize) -> u64 {
    let region = region_of(corners, normals, flag);
    sum_over_flags(n, |_| edits::turn(region))
}

#[unsafe(no_mangle)]
pub extern "C" fn bench_hold(corners: &[f64], normals: &[f64], flag: u64, points: &[f64]) -> u64 {
    let region = region_of(corners, normals, flag);
    sum_over_points(points, |p| flag_answer(edits::hold(region, p)))
}

#[unsafe(no_mangle)]
pub extern "C" fn bench_hold_lent(
    corners: &[f64],
    normals: &[f64],
    flag: u64,
    points: &[f64],
) -> u64 {
    let region = region_of(corners, normals, flag);
    sum_over_points(points, |p| flag_answer(lending::hold_on_lent(region, p)))
}

#[unsafe(no_mangle)]
pub extern "C" fn bench_rule(
    corners: &[f64],
    normals: &[f64],
    flag: u64,
    number: u64,
    points: &[f64],
) -> u64 {
    let region = region_of(corners, normals, flag);
    sum_over_flags(
        points.len() / 5,
        |i| edits::rule(region, rule_of(number, point_at(points, i))),
    )
}

// Where the file after the one that ends here ends, or the first one.
fn end_after(files: &[u8], end: usize, len: usize) -> usize
    ensures { result ≤ length files.now }
{
    let all = files.len();
    if end <= all && len <= all - end {
        return end + len;
    }
    if len <= all { len } else { 0 }
}

// The checksum of what a reader answers to n files, which stand one behind the other, each of `len` bytes.
fn sum_over_files<F: Fn(&[u8]) -> Built>(files: &[u8], len: usize, n: usize, read: F) -> u64
    requires { F.IsAlwaysCallable read }
{
    let mut end: usize = 0;
    let mut sum: u64 = 0;
    for _ in 0..n {
        end = end_after(files, end, len);
        sum = read(&files[..end]).mix_into(sum);
    }
    sum
}

// The copying reader.
#[unsafe(no_mangle)]
pub extern "C" fn bench_read(files: &[u8], len: usize, n: usize) -> u64 {
    sum_over_files(files, len, n, |file| region_file::read(file))
}

// The one that builds straight from the bytes.
#[unsafe(no_mangle)]
pub extern "C" fn bench_read_straight(files: &[u8], len: usize, n: usize) -> u64 {
    sum_over_files(files, len, n, |file| region_file::read_straight(file))
}

// Containment as the C doors have it, by the copying reader: the file is read for each point. This is that reader's second caller, so that the compiler leaves it a
// call, as it did for the doors, and its answer whole: inlined into a loop that alone calls it, it could leave out what is not looked at.
#[unsafe(no_mangle)]
pub extern "C" fn bench_file_contains(file: &[u8], points: &[f64]) -> u64 {
    sum_over_points(points, |p| contains_in(region_file::read(file), p))
}

// The same by the reader that builds straight from the bytes.
#[unsafe(no_mangle)]
pub extern "C" fn bench_file_contains_straight(file: &[u8], points: &[f64]) -> u64 {
    sum_over_points(points, |p| contains_in(region_file::read_straight(file), p))
}

fn contains_in(read: Built, p: Coo3D) -> Result<bool, Cause> {
    read.outcome?;
    region::contains(read.region, p)
}

// A loop of its own: it changes the corners of a region, and `sum_over_moved` those of a list.
#[unsafe(no_mangle)]
pub extern "C" fn bench_write(
    corners: &[f64],
    normals: &[f64],
    flag: u64,
    points: &[f64],
    out: &mut [u8],
) -> u64 {
    let count = corners.len() / 5;
    let mut region = region_of(corners, normals, flag);
    let mut k: usize = 0;
    let mut sum: u64 = 0;
    let n = points.len() / 5;
    for i in 0..n {
        let p = point_at(points, i);
        region.vertices[k] = p;
        sum = Numbered(region_file::write(region, out)).mix_into(sum);
        k = next(k, count);
    }
    sum
}

// Roots that do not wait for each other.
#[unsafe(no_mangle)]
pub extern "C" fn bench_root(values: &[f64]) -> u64 {
    values.iter().fold(0, |sum, x| root::sqrt(*x).mix_into(sum))
}

// Each root waits for the one before it.
#[unsafe(no_mangle)]
pub extern "C" fn bench_root_chain(values: &[f64]) -> u64 {
    float::to_bits(values.iter().fold(1.0, |x, v| root::sqrt(x + *v)))
}

impl Mix for WholeRoot {
    fn mix_into(self, sum: u64) -> u64 {
        (self.root, self.remainder).mix_into(sum)
    }
}

#[unsafe(no_mangle)]
pub extern "C" fn bench_whole_root(values: &[u64]) -> u64 {
    values
        .iter()
        .fold(0, |sum, x| root::whole_root(*x).mix_into(sum))
}

// Each root waits for the one before it: the last bit of its remainder goes into the number.
#[unsafe(no_mangle)]
pub extern "C" fn bench_whole_root_chain(values: &[u64]) -> u64 {
    values
        .iter()
        .fold(0, |sum, x| root::whole_root(*x ^ (sum % 2)).mix_into(0))
}

// The bounds are the first four of each five.
#[unsafe(no_mangle)]
pub extern "C" fn bench_zone_new(bounds: &[f64]) -> u64 {
    sum_over_points(bounds, |b| Numbered(Zone::new(b.x, b.y, b.z, b.lon)))
}

// Six questions to one zone.
#[unsafe(no_mangle)]
pub extern "C" fn bench_zone_questions(bounds: &[f64], triples: &[f64]) -> u64 {
    let b = point_at(bounds, 0);
    let Ok(zone) = Zone::new(b.x, b.y, b.z, b.lon) else {
        return 0;
    };
    sum_over_triples(triples, |t| {
        let across = (
            zone.crossed_vertically(t.x, t.y, t.z),
            zone.crossed_horizontally(t.x, t.y, t.z),
        );
        let inside = (
            zone.is_lon_range_compatible(t.x, t.y),
            zone.contains(t.x, t.y),
            zone.contains_exclusive(t.x, t.y),
        );
        (zone.dlon(), across, inside)
    })
}
