// Edits of a region. A corner changed costs the normals it touches and one pass over the corners, in which those edges are counted that cross the
// seam, and the region is still the one that a fresh build would give: the theorem in edit_theorem. Upstream has `must_contain` alone.
#![tactic(auto)]

ghost use Rattle.std.specs.Prelude.{◌≡◌, cond, not, [], ◌-◌, ◌≤◌, ◌<◌, eqb, ltb, true, OnOk};
ghost use Rattle.lists.specs.Cyclic.{prev_of, next_of, there_of};
ghost use Rattle.region.specs.View.{view_of, with_flag, seams_from};
ghost use Rattle.edits.specs.Edits.{Edited, checked};
ghost use Rattle.edits.specs.Normals.{with_normal};
ghost use Rattle.domain.specs.Checks.{point_at};
ghost use Rattle.refusal.specs.Answer.{answered, refuse_if, and_then, outcome_of, answer_of};
ghost use Rattle.edits.specs.Edits as edit;

use coo3d::Coo3D;
use refusal::Cause;
use region::{ContainsSouthPoleMethod, Region};

// The region beside the outcome: a refusal hands it back as it was, so that this is no `Result`, which would cost one more copy of its 4 KB. `region::Built` has
// the same fields, but beside a refusal it has the empty region.
#[derive(Clone, Copy)]
pub struct EditAnswer {
    pub region: Region,
    pub outcome: Result<(), Cause>,
}

// The index before i, of n. There is no struct of the two numbers: `set_normal` asks this alone of its two, an edit one of the next two functions of
// its own, and each would make the struct for that one question.
fn index_before(n: usize, i: usize) -> usize
    requires { (0 < n) × (i ≤ n) }
    ensures { (result ≡ prev_of n i) × (result < n) }
{
    if i == 0 { n - 1 } else { i - 1 }
}

// The index after i, of n.
fn next_index(n: usize, i: usize) -> usize
    requires { i < n }
    ensures { (result ≡ next_of n i) × (result < n) }
{
    if i + 1 == n { 0 } else { i + 1 }
}

// Where the corner after corner i stands once that one is gone.
fn index_left(n: usize, i: usize) -> usize
    requires { (i < n) × (1 < n) }
    ensures { (result ≡ there_of n i) × (result < n - 1) }
{
    if i + 1 == n { 0 } else { i }
}

// The corner to be set, after the table's tests in their order: the count, the index, the point. Insert's most is 63, so these tests of the count
// are not those of domain::check_count.
fn corner_for(count: usize, most: usize, there: bool, corner: Coo3D) -> Result<Coo3D, Cause>
    ensures answer { answer_of result ≡ refuse_if (eqb count 0) 2 [] (refuse_if (ltb most count) 3 [] (refuse_if (not there) 4 [] (point_at 0 corner))) }
    ensures inside { OnOk result ((0 < count) × ((count ≤ most) × (there ≡ true))) }
{
    if count == 0 {
        return Err(Cause::NoPoint);
    }
    if count > most {
        return Err(Cause::TooManyPoints);
    }
    if !there {
        return Err(Cause::NoSuchIndex);
    }
    domain::check_point(corner, 0)
}

// The table's tests of a remove, in their order.
fn removable(count: usize, i: usize) -> Result<(), Cause>
    ensures answer { outcome_of result (edit.remove i) ≡ checked count (edit.remove i) }
    ensures inside { OnOk result ((i < count) × ((1 < count) × (count ≤ 64))) }
{
    if count <= 1 {
        return Err(Cause::NoPoint);
    }
    domain::check_count(count)?;
    if i >= count {
        return Err(Cause::NoSuchIndex);
    }
    Ok(())
}

// The normal of the edge that ends at corner i, by the corners as they are now.
fn set_normal(region: &mut Region, i: usize)
    requires { (i < region.old.count) × (region.old.count ≤ 64) }
    ensures { region.new ≡ with_normal region.old i }
{
    let from = region.vertices[index_before(region.count, i)];
    region.cross_products[i] = region::edge_normal(from, region.vertices[i]);
}

// The normals of the edges that end at corners i and j, which at count 1 are one edge.
fn set_normals(region: &mut Region, i: usize, j: usize)
    requires { (i < region.old.count) × (j < region.old.count) × (region.old.count ≤ 64) }
    ensures { region.new ≡ with_normal (with_normal region.old i) j }
{
    set_normal(region, i);
    if i != j {
        set_normal(region, j);
    }
}

// How many edges of these corners cross the seam, where edge 0 starts at `from`.
fn seams_from(from: Coo3D, corners: &[Coo3D]) -> usize
    ensures { result ≡ seams_from from corners.now }
{
    let mut start = from;
    let mut seam_count: usize = 0;
    for &end in corners {
        let crosses = region::crosses_seam(start, end);
        seam_count += crosses as usize;
        start = end;
    }
    seam_count
}

// The two normals that touch the corner are worked out, which at count 1 is one; the seam count is taken anew, since a value may be handed in with any.
fn put_in(region: &mut Region, i: usize, corner: Coo3D) -> Result<(), Cause>
    ensures { Edited (edit.put i corner) region.old (record { region = region.new; outcome = result }) }
{
    let count = region.count;
    let p = corner_for(count, 64, i < count, corner)?;
    region.vertices[i] = p;
    let next = next_index(count, i);
    set_normals(region, i, next);
    region.seam_count = seams_from(region.vertices[count - 1], &region.vertices[..count]);
    Ok(())
}

// The one copy is made here; a refusal leaves it as it is. The same in insert and remove.
pub fn put(r: Region, i: usize, corner: Coo3D) -> EditAnswer
    ensures { Edited (edit.put i corner) r result }
{
    let mut region = r;
    let outcome = put_in(&mut region, i, corner);
    EditAnswer { region, outcome }
}

// The new corner's two normals are worked out, the others move with their corners.
fn insert_in(region: &mut Region, i: usize, corner: Coo3D) -> Result<(), Cause>
    ensures { Edited (edit.insert i corner) region.old (record { region = region.new; outcome = result }) }
{
    let count = region.count;
    let p = corner_for(count, 63, i <= count, corner)?;
    let more = count + 1;
    region.count = more;
    region.vertices.copy_within(i..count, i + 1);
    region.vertices[i] = p;
    region.cross_products.copy_within(i..count, i + 1);
    set_normal(region, i);
    set_normal(region, next_index(more, i));
    region.seam_count = seams_from(region.vertices[more - 1], &region.vertices[..more]);
    Ok(())
}

// Before corner i; i equal to the count appends.
pub fn insert(r: Region, i: usize, corner: Coo3D) -> EditAnswer
    ensures { Edited (edit.insert i corner) r result }
{
    let mut region = r;
    let outcome = insert_in(&mut region, i, corner);
    EditAnswer { region, outcome }
}

// The normal of the edge that closes the gap is worked out, the others move with their corners, and the seam count is taken anew.
fn remove_in(region: &mut Region, i: usize) -> Result<(), Cause>
    ensures { Edited (edit.remove i) region.old (record { region = region.new; outcome = result }) }
{
    let count = region.count;
    removable(count, i)?;
    let fewer = count - 1;
    region.count = fewer;
    region.vertices.copy_within(i + 1..count, i);
    region.cross_products.copy_within(i + 1..count, i);
    let left = index_left(count, i);
    set_normal(region, left);
    region.seam_count = seams_from(region.vertices[fewer - 1], &region.vertices[..fewer]);
    Ok(())
}

pub fn remove(r: Region, i: usize) -> EditAnswer
    ensures { Edited (edit.remove i) r result }
{
    let mut region = r;
    let outcome = remove_in(&mut region, i);
    EditAnswer { region, outcome }
}

// The region with the flag, where there is one. Its one copy is made where both cases have met.
fn flagged(r: Region, flag: Result<bool, Cause>) -> EditAnswer
    ensures answer { outcome_of result.outcome (view_of result.region) ≡ and_then (answer_of flag) (λ b. answered (with_flag (view_of r) b)) }
    ensures kept { (cause : Cause) → result.outcome ≡ Err cause → result.region ≡ r }
{
    let mut region = r;
    let outcome = match flag {
        Ok(is_set) => {
            region.contains_south_pole = is_set;
            Ok(())
        }
        Err(cause) => Err(cause),
    };
    EditAnswer { region, outcome }
}

pub fn turn(r: Region) -> EditAnswer
    ensures { Edited edit.turn r result }
{
    let turned = !r.contains_south_pole;
    flagged(r, domain::check_count(r.count).and(Ok(turned)))
}

// Upstream: `must_contain`. The flag is turned where the point isn't contained.
pub fn hold(r: Region, coo: Coo3D) -> EditAnswer
    ensures { Edited (edit.hold coo) r result }
{
    let flag = r.contains_south_pole;
    flagged(
        r,
        region::contains(r, coo).map(|is_inside| if is_inside { flag } else { !flag }),
    )
}

// The same on a lent region, which a refusal leaves as it was.
pub fn hold_lent(r: &mut Region, coo: Coo3D) -> Result<(), Cause>
    ensures { Edited (edit.hold coo) r.old (record { region = r.new; outcome = result }) }
{
    let answer = hold(*r, coo);
    let out = answer.region;
    *r = out;
    answer.outcome
}

pub fn rule(r: Region, method: ContainsSouthPoleMethod) -> EditAnswer
    ensures { Edited (edit.rule method) r result }
{
    flagged(r, region::contains_south_pole(r, method))
}
