// Requests about the region that is kept: it is built, edited, handed in, and asked about a point.
#![tactic(auto)]

use answers::Session;
use coo3d::{Coo3D, Vect3};
use edits::EditAnswer;
use region::{ContainsSouthPoleMethod, Region};
use stream::{Result, Stop};

// A rule's number and its control point, which is always there. A rule is made of both: no conversion of a number alone.
fn get_rule(session: &mut Session<'_>) -> Result<ContainsSouthPoleMethod> {
    let number: u64 = session.get()?;
    let control_point = session.get()?;
    match number {
        0 => Ok(ContainsSouthPoleMethod::Default),
        1 => Ok(ContainsSouthPoleMethod::DefaultComplement),
        2 => Ok(ContainsSouthPoleMethod::ContainsSouthPole),
        3 => Ok(ContainsSouthPoleMethod::DoNotContainsSouthPole),
        4 => Ok(ContainsSouthPoleMethod::ControlPointIn(control_point)),
        5 => Ok(ContainsSouthPoleMethod::ControlPointOut(control_point)),
        _ => Err(Stop::Ended),
    }
}

pub fn build(session: &mut Session<'_>) -> Result<()> {
    let count = session.reader.get_length()?;
    let rule = get_rule(session)?;
    let corners = session.reader.get_points(count)?;
    let built = region::build(corners, count, rule);
    session.keep(built.outcome, built.region)
}

fn edit<F: FnOnce(Region) -> EditAnswer>(session: &mut Session<'_>, edit: F) -> Result<()>
    requires { F.IsAlwaysCallable edit }
{
    let edited = edit(session.region);
    session.keep(edited.outcome, edited.region)
}

pub fn put(session: &mut Session<'_>) -> Result<()> {
    let i = session.get()?;
    let corner = session.get()?;
    edit(session, |r| edits::put(r, i, corner))
}

pub fn insert(session: &mut Session<'_>) -> Result<()> {
    let i = session.get()?;
    let corner = session.get()?;
    edit(session, |r| edits::insert(r, i, corner))
}

pub fn remove(session: &mut Session<'_>) -> Result<()> {
    let i = session.get()?;
    edit(session, |r| edits::remove(r, i))
}

pub fn turn(session: &mut Session<'_>) -> Result<()> {
    edit(session, edits::turn)
}

pub fn hold(session: &mut Session<'_>) -> Result<()> {
    let p = session.get()?;
    edit(session, |r| edits::hold(r, p))
}

pub fn hold_on_lent(session: &mut Session<'_>) -> Result<()> {
    let p = session.get()?;
    edit(session, |r| lending::hold_on_lent(r, p))
}

pub fn change_rule(session: &mut Session<'_>) -> Result<()> {
    let rule = get_rule(session)?;
    edit(session, |r| edits::rule(r, rule))
}

pub fn show(session: &mut Session<'_>) -> Result<()> {
    session.put(session.region)
}

// The region is the one given, unchecked: its corners and normals, and what came before them.
fn hand_in_lists(
    session: &mut Session<'_>,
    count: usize,
    contains_south_pole: bool,
    seam_count: usize,
) -> Result<()> {
    let mut vertices = [Coo3D::origin(); 64];
    session.reader.get_each(&mut vertices)?;
    let mut cross_products = [Vect3::zero(); 64];
    session.reader.get_each(&mut cross_products)?;
    session.region = Region {
        vertices,
        cross_products,
        count,
        contains_south_pole,
        seam_count,
    };
    session.put(Ok(()))
}

pub fn hand_in(session: &mut Session<'_>) -> Result<()> {
    let count = session.get()?;
    let flag: u64 = session.get()?;
    hand_in_lists(session, count, flag != 0, 0)
}

pub fn hand_in_seamed(session: &mut Session<'_>) -> Result<()> {
    let count = session.get()?;
    let flag: u64 = session.get()?;
    let seam_count = session.get()?;
    hand_in_lists(session, count, flag != 0, seam_count)
}

pub fn seam_count(session: &mut Session<'_>) -> Result<()> {
    session.put(region::seam_count(session.region))
}

pub fn contains(session: &mut Session<'_>) -> Result<()> {
    let p = session.get()?;
    session.put(region::contains(session.region, p))
}

// The decision, and the number beside one that was not refused.
pub fn contains_with_range_count(session: &mut Session<'_>) -> Result<()> {
    let p = session.get()?;
    let answer = cost::contains_with_range_count(session.region, p);
    session.put(answer.decision.map(|yes| (yes, answer.in_range)))
}

// The outline is kept, and its point answered.
pub fn costliest_outline(session: &mut Session<'_>) -> Result<()> {
    let count = session.get()?;
    let answer = cost::costliest_outline(count);
    session.keep(
        answer.built.outcome.map(|()| answer.point),
        answer.built.region,
    )
}
