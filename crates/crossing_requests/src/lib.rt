// Requests for the crossings of the kept region's edges with arcs, great circles and parallels.
#![tactic(auto)]

use answers::{Session, ToWords};
use coo3d::Coo3D;
use region::Region;
use stream::Result;

// An arc is its two ends.
fn ask_arc<A: ToWords + Drop, F: FnOnce(Region, Coo3D, Coo3D) -> A>(
    session: &mut Session<'_>,
    ask: F,
) -> Result<()>
    requires { F.IsAlwaysCallable ask }
{
    let a = session.get()?;
    let b = session.get()?;
    session.put(ask(session.region, a, b))
}

// Of a parallel a request has the latitude, its sine and its cosine.
fn ask_parallel<A: ToWords + Drop, F: FnOnce(Region, f64, f64, f64) -> A>(
    session: &mut Session<'_>,
    ask: F,
) -> Result<()>
    requires { F.IsAlwaysCallable ask }
{
    let lat = session.get()?;
    let sine = session.get()?;
    let cosine = session.get()?;
    session.put(ask(session.region, lat, sine, cosine))
}

pub fn arc_first(session: &mut Session<'_>) -> Result<()> {
    ask_arc(session, great_circles::intersect_great_circle_arc)
}

pub fn arc_all(session: &mut Session<'_>) -> Result<()> {
    ask_arc(session, great_circles::intersect_great_circle_arc_all)
}

pub fn is_intersecting_arc(session: &mut Session<'_>) -> Result<()> {
    ask_arc(session, great_circles::is_intersecting_great_circle_arc)
}

pub fn great_circle_all(session: &mut Session<'_>) -> Result<()> {
    let n = session.get()?;
    session.put(great_circles::intersect_great_circle_all(session.region, n))
}

pub fn parallel_first(session: &mut Session<'_>) -> Result<()> {
    ask_parallel(session, parallels::intersect_parallel)
}

pub fn parallel_all(session: &mut Session<'_>) -> Result<()> {
    ask_parallel(session, parallels::intersect_parallel_all)
}

pub fn is_intersecting_parallel(session: &mut Session<'_>) -> Result<()> {
    ask_parallel(session, parallels::is_intersecting_parallel)
}
