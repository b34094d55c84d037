// What the examples share: how they make points, and how they print, the call's name and then a line for each answer. Doubles are the 16 hexadecimal
// digits of their bits.
#![tactic(auto)]

use cone::Cone;
use coo3d::{Coo3D, LonLat, UnitVect3, Vect3};
use cost::RangedDecision;
use crossings::AllAnswer;
use edits::EditAnswer;
use refusal::Cause;
use region::{Built, ContainsSouthPoleMethod, Region};
use region_file::Trailer;
use std::{fmt, io};
use zone::Zone;

// What an example prints of a value.
pub trait Tell {
    fn tell<R: Print>(&self, rt: &R) -> io::Result<()>;
}

pub fn at(x: f64, y: f64, z: f64, lon: f64, lat: f64) -> Coo3D {
    Coo3D { x, y, z, lon, lat }
}

// The corners, and free entries behind them.
pub fn corners_of(corners: &[Coo3D]) -> [Coo3D; 64] {
    let mut points = [Coo3D::origin(); 64];
    for (point, corner) in points.iter_mut().zip(corners) {
        *point = *corner;
    }
    points
}

pub fn call(rt: &impl Print, name: &str) -> io::Result<()> {
    println!(rt; "{name}")
}

// No part of its caller: each answer that an example prints would have a copy of its own there, and `manual` took 8 KB of stack more.
#[inline(never)]
pub fn answer<T: Tell + Drop>(rt: &impl Print, answer: T) -> io::Result<()> {
    answer.tell(rt)
}

pub fn bits(rt: &impl Print, n: u64) -> io::Result<()> {
    println!(rt; "  {n:016x}")
}

// Two digits for each byte.
pub fn bytes(rt: &impl Print, bytes: &[u8]) -> io::Result<()> {
    print!(rt; " ")?;
    for byte in bytes {
        print!(rt; " {byte:02x}")?;
    }
    println!(rt; "")
}

pub fn written(rt: &impl Print, answer: Result<usize, Cause>) -> io::Result<()> {
    answer.map(FileLength).tell(rt)
}

#[derive(Clone, Copy)]
struct FileLength(usize);

impl Tell for FileLength {
    fn tell<R: Print>(&self, rt: &R) -> io::Result<()> {
        println!(rt; "  written {}", self.0)
    }
}

// The digits of a double's bits.
#[derive(Clone, Copy)]
struct Digits(f64);

impl fmt::Display for Digits {
    fn fmt<W: fmt::Write>(&self, f: &mut fmt::Formatter<W>) -> fmt::Result {
        let bits = float::to_bits(self.0);
        write!(f, "{bits:016x}")
    }
}

// A count of corners, and a pole flag.
#[derive(Clone, Copy)]
struct Outline {
    count: usize,
    flag: bool,
}

impl fmt::Display for Outline {
    fn fmt<W: fmt::Write>(&self, f: &mut fmt::Formatter<W>) -> fmt::Result {
        let flag = if self.flag { "set" } else { "clear" };
        write!(f, "corners {}, flag {flag}", self.count)
    }
}

// The answer; of a refusal the number, and what stands beside it.
impl<T: Tell> Tell for Result<T, Cause> {
    fn tell<R: Print>(&self, rt: &R) -> io::Result<()> {
        match self {
            Ok(answer) => answer.tell(rt),
            Err(cause) => {
                let number = refusal::number(*cause);
                match *cause {
                    Cause::OutsideDomain(index) => {
                        println!(rt; "  refused {number}, index {index}")
                    }
                    Cause::ShortOutput(needed) => {
                        println!(rt; "  refused {number}, length needed {needed}")
                    }
                    _ => println!(rt; "  refused {number}"),
                }
            }
        }
    }
}

impl<T: Tell> Tell for Option<T> {
    fn tell<R: Print>(&self, rt: &R) -> io::Result<()> {
        match self {
            Some(answer) => answer.tell(rt),
            None => println!(rt; "  none"),
        }
    }
}

impl Tell for () {
    fn tell<R: Print>(&self, rt: &R) -> io::Result<()> {
        println!(rt; "  done")
    }
}

impl Tell for bool {
    fn tell<R: Print>(&self, rt: &R) -> io::Result<()> {
        println!(rt; "  {}", if *self { "yes" } else { "no" })
    }
}

impl Tell for usize {
    fn tell<R: Print>(&self, rt: &R) -> io::Result<()> {
        println!(rt; "  {self}")
    }
}

impl Tell for u64 {
    fn tell<R: Print>(&self, rt: &R) -> io::Result<()> {
        println!(rt; "  {self}")
    }
}

impl Tell for f64 {
    fn tell<R: Print>(&self, rt: &R) -> io::Result<()> {
        println!(rt; "  {}", Digits(*self))
    }
}

impl Tell for LonLat {
    fn tell<R: Print>(&self, rt: &R) -> io::Result<()> {
        println!(rt; "  {} {}", Digits(self.lon), Digits(self.lat))
    }
}

impl Tell for Vect3 {
    fn tell<R: Print>(&self, rt: &R) -> io::Result<()> {
        println!(rt;
            "  {} {} {}",
            Digits(self.x),
            Digits(self.y),
            Digits(self.z)
        )
    }
}

// By the vector's line, which is the same.
impl Tell for UnitVect3 {
    fn tell<R: Print>(&self, rt: &R) -> io::Result<()> {
        self.to_vect3().tell(rt)
    }
}

// x, y and z, by the vector's line.
impl Tell for Coo3D {
    fn tell<R: Print>(&self, rt: &R) -> io::Result<()> {
        self.to_vect3().tell(rt)
    }
}

// The rule itself is not printed.
impl Tell for ContainsSouthPoleMethod {
    fn tell<R: Print>(&self, rt: &R) -> io::Result<()> {
        println!(rt; "  taken")
    }
}

// The corner count and the flag.
impl Tell for Region {
    fn tell<R: Print>(&self, rt: &R) -> io::Result<()> {
        let outline = Outline {
            count: self.count,
            flag: self.contains_south_pole,
        };
        println!(rt; "  done, {outline}")
    }
}

impl Tell for Built {
    fn tell<R: Print>(&self, rt: &R) -> io::Result<()> {
        self.outcome.map(|()| self.region).tell(rt)
    }
}

impl Tell for EditAnswer {
    fn tell<R: Print>(&self, rt: &R) -> io::Result<()> {
        self.outcome.map(|()| self.region).tell(rt)
    }
}

// The decision, and the number of edges in range.
impl Tell for RangedDecision {
    fn tell<R: Print>(&self, rt: &R) -> io::Result<()> {
        self.decision.tell(rt)?;
        println!(rt; "  in range {}", self.in_range)
    }
}

// The outcome, the list's length, and a line for each of its points.
impl Tell for AllAnswer {
    fn tell<R: Print>(&self, rt: &R) -> io::Result<()> {
        self.outcome.tell(rt)?;
        let len = self.crossings.len;
        println!(rt; "  length {len}")?;
        for point in self.crossings.points.iter().take(len) {
            point.tell(rt)?;
        }
        Ok(())
    }
}

// The bounds, and whether the zone runs over the meridian 0.
impl Tell for Zone {
    fn tell<R: Print>(&self, rt: &R) -> io::Result<()> {
        self.lon_min.tell(rt)?;
        self.lat_min.tell(rt)?;
        self.lon_max.tell(rt)?;
        self.lat_max.tell(rt)?;
        self.cross_primary_meridian.tell(rt)
    }
}

// The centre, and the largest squared chord.
impl Tell for Cone {
    fn tell<R: Print>(&self, rt: &R) -> io::Result<()> {
        self.center.tell(rt)?;
        self.d2_max.tell(rt)
    }
}

impl Tell for Trailer {
    fn tell<R: Print>(&self, rt: &R) -> io::Result<()> {
        let outline = Outline {
            count: self.count,
            flag: self.flag,
        };
        println!(rt; "  {outline}")
    }
}
