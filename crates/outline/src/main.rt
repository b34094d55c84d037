// The example's region file, to standard output: a seal colony's water round Bouvet Island, five corners on both sides of the meridian 0.
#![tactic(auto)]

use coo3d::Coo3D;
use region::ContainsSouthPoleMethod;
use std::io;

fn main(rt: HostRuntime) -> io::Result<()> {
    let corners = [
        // longitude 352, latitude -50 degrees
        Coo3D {
            x: 0.6365320448552996,
            y: -0.08945874489878416,
            z: -0.766044443118978,
            lon: 6.14355896702004,
            lat: -0.8726646259971648,
        },
        // 10, -49
        Coo3D {
            x: 0.6460920181835125,
            y: 0.1139234548261374,
            z: -0.754709580222772,
            lon: 0.17453292519943295,
            lat: -0.8552113334772214,
        },
        // 16, -56
        Coo3D {
            x: 0.5375307187469627,
            y: 0.1541344533043071,
            z: -0.8290375725550417,
            lon: 0.2792526803190927,
            lat: -0.9773843811168246,
        },
        // 4, -61
        Coo3D {
            x: 0.48362864837786335,
            y: 0.03381860954561297,
            z: -0.8746197071393957,
            lon: 0.06981317007977318,
            lat: -1.064650843716541,
        },
        // 350, -58
        Coo3D {
            x: 0.521868599887385,
            y: -0.09201951454469706,
            z: -0.848048096156426,
            lon: 6.108652381980153,
            lat: -1.0122909661567112,
        },
    ];
    let mut points = [Coo3D::origin(); 64];
    points[..5].copy_from_slice(&corners);
    let built = region::build(points, 5, ContainsSouthPoleMethod::Default);
    // five corners of 40 bytes and the trailer
    let mut file = [0; 216];
    // a refusal writes nothing
    if built.outcome.is_ok() && region_file::write(built.region, &mut file).is_ok() {
        rt.write_all(&file)?;
    }
    Ok(())
}
