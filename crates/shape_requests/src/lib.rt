// Requests that concern no region: zones, the bounding cone, the roots.
#![tactic(auto)]

use answers::Session;
use refusal::Cause;
use stream::Result;
use zone::Zone;

pub fn new_zone(session: &mut Session<'_>) -> Result<()> {
    let lon_min = session.get()?;
    let lat_min = session.get()?;
    let lon_max = session.get()?;
    let lat_max = session.get()?;
    let made = Zone::new(lon_min, lat_min, lon_max, lat_max);
    if let Ok(zone) = made {
        session.zone = Some(zone);
    }
    session.put(made.map(|_| ()))
}

// With no zone the answer is as to wrong bounds.
pub fn ask_zone(session: &mut Session<'_>) -> Result<()> {
    let a = session.get()?;
    let b = session.get()?;
    let c = session.get()?;
    let Some(zone) = session.zone else {
        return session.put(Err::<(), Cause>(Cause::ZoneBounds));
    };
    session.put(Ok(zone.dlon()))?;
    session.put(zone.crossed_vertically(a, b, c))?;
    session.put(zone.crossed_horizontally(a, b, c))?;
    session.put(zone.is_lon_range_compatible(a, b))?;
    session.put(zone.contains(a, b))?;
    session.put(zone.contains_exclusive(a, b))?;
    session.put(zone.vertices().as_slice())
}

pub fn bounding_cone(session: &mut Session<'_>) -> Result<()> {
    let count = session.reader.get_length()?;
    let points = session.reader.get_points(count)?;
    let cone = cone::bounding_cone(points, count);
    session.put(cone.map(|cone| (cone.center, cone.d2_max)))
}

pub fn root(session: &mut Session<'_>) -> Result<()> {
    let x = session.get()?;
    session.put(root::sqrt(x))
}

pub fn whole_root(session: &mut Session<'_>) -> Result<()> {
    let n = session.get()?;
    let root = root::whole_root(n);
    session.put((root.root, root.remainder))
}
