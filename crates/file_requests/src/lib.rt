// Requests about a region file: it is written, read, and asked through the two calls of `doors`. What is lent is the front of an array, as long as the request
// says.
#![tactic(auto)]

use answers::Session;
use coo3d::Coo3D;
use region::Built;
use stream::Result;

// An output's bytes are AA before the call; a file's are read over them.
fn space() -> [u8; 4096] {
    [0xAA; 4096]
}

// A file, read into the front of a space.
fn get_file<'a>(session: &mut Session<'_>, space: &'a mut [u8; 4096]) -> Result<&'a mut [u8]> {
    let len = session.reader.get_length()?;
    let file = &mut space[..len];
    session.reader.get_bytes(file)?;
    Ok(file)
}

pub fn write(session: &mut Session<'_>) -> Result<()> {
    let len = session.reader.get_length()?;
    let mut space = space();
    let lent = &mut space[..len];
    let written = region_file::write(session.region, lent);
    session.put(written)?;
    if written.is_ok() {
        session.writer.put_bytes(lent)?;
    }
    Ok(())
}

// By one of the two readers; a region that is not refused is kept.
fn read_by<F: FnOnce(&[u8]) -> Built>(session: &mut Session<'_>, read: F) -> Result<()>
    requires { F.IsAlwaysCallable read }
{
    let mut space = space();
    let built = read(get_file(session, &mut space)?);
    session.keep(built.outcome, built.region)
}

pub fn read(session: &mut Session<'_>) -> Result<()> {
    read_by(session, |file| region_file::read(file))
}

pub fn read_straight(session: &mut Session<'_>) -> Result<()> {
    read_by(session, |file| region_file::read_straight(file))
}

pub fn door_contains(session: &mut Session<'_>) -> Result<()> {
    let mut space = space();
    let file = get_file(session, &mut space)?;
    let p: Coo3D = session.get()?;
    session.put(doors::jigwandor_contains(file, p.x, p.y, p.z, p.lon, p.lat) as u64)
}

pub fn door_hold(session: &mut Session<'_>) -> Result<()> {
    let mut space = space();
    let file = get_file(session, &mut space)?;
    let p: Coo3D = session.get()?;
    session.put(doors::jigwandor_hold(file, p.x, p.y, p.z, p.lon, p.lat) as u64)?;
    session.writer.put_bytes(file)
}
