// The functions that C calls, over a region file's bytes: docs/CALLS.md and c/jigwandor.h. A slice is a pointer, then a length.
#![tactic(auto)]

ghost use Rattle.std.specs.Prelude.{◌≡◌};
ghost use Rattle.doors.specs.Doors.{contains_code, hold_code, held_file};

// 1 where the file's region contains the point, 0 where it does not, or 16 plus the refusal's number.
#[unsafe(no_mangle)]
pub extern "C" fn jigwandor_contains(file: &[u8], x: f64, y: f64, z: f64, lon: f64, lat: f64) -> u32
    ensures { result ≡ contains_code file.now (record { x = x; y = y; z = z; lon = lon; lat = lat }) }
{
    doors::jigwandor_contains(file, x, y, z, lon, lat)
}

// Sets the file's flag field so that its region contains the point: 0, or 16 plus the refusal's number, and then every byte is left.
#[unsafe(no_mangle)]
pub extern "C" fn jigwandor_hold(file: &mut [u8], x: f64, y: f64, z: f64, lon: f64, lat: f64) -> u32
    ensures answer { result ≡ hold_code file.old (record { x = x; y = y; z = z; lon = lon; lat = lat }) }
    ensures file_after { file.new ≡ held_file file.old (record { x = x; y = y; z = z; lon = lon; lat = lat }) }
{
    doors::jigwandor_hold(file, x, y, z, lon, lat)
}
