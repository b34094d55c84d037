// Two calls over a region file's bytes: docs/CALLS.md. C calls them by way of doors_c, and passes a point as five numbers.
#![tactic(auto)]

ghost use Rattle.std.specs.Prelude.{◌≡◌, true};
ghost use Rattle.refusal.specs.Answer.{and_then, verdict, answer_of, outcome_of};
ghost use Rattle.region.specs.Region.{contains_of};
ghost use Rattle.region_file.specs.File.{read_of};
ghost use Rattle.doors.specs.Doors.{code_of, contains_code, held_of, hold_code, held_file};

use coo3d::Coo3D;
use refusal::Cause;

// A call's answer as C has it: a number, or 16 plus the refusal's.
fn code(answer: Result<u32, Cause>) -> u32
    ensures { result ≡ code_of (λ n. n) (answer_of answer) }
{
    match answer {
        Ok(n) => n,
        Err(cause) => 16 + refusal::number(cause) as u32,
    }
}

// Whether the file's region contains the point.
fn contains(file: &[u8], coo: Coo3D) -> Result<bool, Cause>
    ensures { answer_of result ≡ and_then (read_of file.now) (λ v. contains_of v coo) }
{
    let read = region_file::read_straight(file);
    read.outcome?;
    region::contains(read.region, coo)
}

// Sets the file's flag field so that its region contains the point.
fn hold(file: &mut [u8], coo: Coo3D) -> Result<(), Cause>
    ensures answer { outcome_of result true ≡ verdict (held_of file.old coo) }
    ensures file_after { file.new ≡ held_file file.old coo }
{
    let read = region_file::read_straight(file);
    read.outcome?;
    let held = edits::hold(read.region, coo);
    held.outcome?;
    region_file::set_flag(file, held.region.contains_south_pole)
}

// 1 where the file's region contains the point, 0 where it does not, or 16 plus the refusal's number.
pub fn jigwandor_contains(file: &[u8], x: f64, y: f64, z: f64, lon: f64, lat: f64) -> u32
    ensures { result ≡ contains_code file.now (record { x = x; y = y; z = z; lon = lon; lat = lat }) }
{
    code(contains(file, Coo3D { x, y, z, lon, lat }).map(u32::from))
}

// Sets the file's flag field so that its region contains the point: 0, or 16 plus the refusal's number, and then every byte is left.
pub fn jigwandor_hold(file: &mut [u8], x: f64, y: f64, z: f64, lon: f64, lat: f64) -> u32
    ensures answer { result ≡ hold_code file.old (record { x = x; y = y; z = z; lon = lon; lat = lat }) }
    ensures file_after { file.new ≡ held_file file.old (record { x = x; y = y; z = z; lon = lon; lat = lat }) }
{
    code(hold(file, Coo3D { x, y, z, lon, lat }).and(Ok(0)))
}
