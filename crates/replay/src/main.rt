// Answers a stream of requests on standard input with a stream of answers on standard output (docs/COMPARISON.md has both). Each kind of request
// has a library that decodes it, calls the library's public functions and encodes the answer. A new request is a function there, and here its number
// and its line in `answer`.
#![tactic(auto)]

use answers::Session;
use std::io;
use stream::{BUFFER_LEN, Reader, Result, Stop, Writer};

#[derive(Clone, Copy)]
enum Request {
    Build,
    Put,
    Insert,
    Remove,
    Turn,
    Hold,
    Rule,
    HoldOnLent,
    ShowRegion,
    Contains,
    ArcFirst,
    ArcAll,
    IsIntersectingArc,
    GreatCircleAll,
    ParallelFirst,
    ParallelAll,
    IsIntersectingParallel,
    WriteFile,
    ReadFile,
    DoorContains,
    DoorHold,
    Root,
    NewZone,
    AskZone,
    BoundingCone,
    HandInRegion,
    SeamCount,
    HandInSeamed,
    ReadFileStraight,
    ContainsWithRangeCount,
    CostliestOutline,
    WholeRoot,
}

impl TryFrom<u64> for Request {
    type Error = Stop;

    // A number that is not here ends the stream.
    fn try_from(number: u64) -> Result<Request> {
        Ok(match number {
            1 => Request::Build,
            2 => Request::Put,
            3 => Request::Insert,
            4 => Request::Remove,
            5 => Request::Turn,
            6 => Request::Hold,
            7 => Request::Rule,
            8 => Request::HoldOnLent,
            9 => Request::ShowRegion,
            10 => Request::Contains,
            11 => Request::ArcFirst,
            12 => Request::ArcAll,
            13 => Request::IsIntersectingArc,
            14 => Request::GreatCircleAll,
            15 => Request::ParallelFirst,
            16 => Request::ParallelAll,
            17 => Request::IsIntersectingParallel,
            18 => Request::WriteFile,
            19 => Request::ReadFile,
            20 => Request::DoorContains,
            21 => Request::DoorHold,
            22 => Request::Root,
            23 => Request::NewZone,
            24 => Request::AskZone,
            25 => Request::BoundingCone,
            26 => Request::HandInRegion,
            27 => Request::SeamCount,
            28 => Request::HandInSeamed,
            29 => Request::ReadFileStraight,
            30 => Request::ContainsWithRangeCount,
            31 => Request::CostliestOutline,
            32 => Request::WholeRoot,
            _ => return Err(Stop::Ended),
        })
    }
}

// A request, with its answer.
fn answer(session: &mut Session<'_>) -> Result<()> {
    let number: u64 = session.get()?;
    match Request::try_from(number)? {
        Request::Build => region_requests::build(session),
        Request::Put => region_requests::put(session),
        Request::Insert => region_requests::insert(session),
        Request::Remove => region_requests::remove(session),
        Request::Turn => region_requests::turn(session),
        Request::Hold => region_requests::hold(session),
        Request::Rule => region_requests::change_rule(session),
        Request::HoldOnLent => region_requests::hold_on_lent(session),
        Request::ShowRegion => region_requests::show(session),
        Request::Contains => region_requests::contains(session),
        Request::ArcFirst => crossing_requests::arc_first(session),
        Request::ArcAll => crossing_requests::arc_all(session),
        Request::IsIntersectingArc => crossing_requests::is_intersecting_arc(session),
        Request::GreatCircleAll => crossing_requests::great_circle_all(session),
        Request::ParallelFirst => crossing_requests::parallel_first(session),
        Request::ParallelAll => crossing_requests::parallel_all(session),
        Request::IsIntersectingParallel => crossing_requests::is_intersecting_parallel(session),
        Request::WriteFile => file_requests::write(session),
        Request::ReadFile => file_requests::read(session),
        Request::DoorContains => file_requests::door_contains(session),
        Request::DoorHold => file_requests::door_hold(session),
        Request::Root => shape_requests::root(session),
        Request::NewZone => shape_requests::new_zone(session),
        Request::AskZone => shape_requests::ask_zone(session),
        Request::BoundingCone => shape_requests::bounding_cone(session),
        Request::HandInRegion => region_requests::hand_in(session),
        Request::SeamCount => region_requests::seam_count(session),
        Request::HandInSeamed => region_requests::hand_in_seamed(session),
        Request::ReadFileStraight => file_requests::read_straight(session),
        Request::ContainsWithRangeCount => region_requests::contains_with_range_count(session),
        Request::CostliestOutline => region_requests::costliest_outline(session),
        Request::WholeRoot => shape_requests::whole_root(session),
    }
}

// A proved loop has to end, and nothing says that the input does: no run uses up the turns.
fn answer_all(session: &mut Session<'_>) -> io::Result<()> {
    for _ in 0..u64::MAX {
        match answer(session) {
            Ok(()) => {}
            Err(Stop::Ended) => break,
            Err(Stop::Failed(error)) => return Err(error),
        }
    }
    Ok(())
}

fn main(rt: HostRuntime) -> io::Result<()> {
    let mut input = [0; BUFFER_LEN];
    let mut output = [0; BUFFER_LEN];
    let mut session = Session::new(
        Reader::new(rt.stdin(), &mut input),
        Writer::new(rt.stdout(), &mut output),
    );
    // What was answered before a read failed is written too.
    let answered = answer_all(&mut session);
    let flushed = session.writer.flush();
    answered.and(flushed)
}
