// What is kept from one request to the next, and what the library's answers look like in the stream.
#![tactic(auto)]

use coo3d::{Coo3D, LonLat, UnitVect3, Vect3};
use crossings::{AllAnswer, Crossings};
use refusal::Cause;
use region::Region;
use stream::{FromWords, Reader, Writer};
use zone::Zone;

// What an answer is made of.
pub trait ToWords {
    fn put_to(&self, words: &mut Writer<'_>) -> stream::Result<()>;
}

// The stream, and what requests keep: a region, at first one of no corner, and a zone, at first none.
#[derive(Drop)]
pub struct Session<'a> {
    pub reader: Reader<'a>,
    pub writer: Writer<'a>,
    pub region: Region,
    pub zone: Option<Zone>,
}

impl<'a> Session<'a> {
    pub fn new(reader: Reader<'a>, writer: Writer<'a>) -> Session<'a> {
        Session {
            reader,
            writer,
            region: region::empty(),
            zone: None,
        }
    }

    pub fn get<T: FromWords>(&mut self) -> stream::Result<T> {
        self.reader.get()
    }

    pub fn put<T: ToWords + Drop>(&mut self, answer: T) -> stream::Result<()> {
        answer.put_to(&mut self.writer)
    }

    // The region that a call gave is kept where the call was done.
    pub fn keep<T: ToWords + Drop>(
        &mut self,
        answer: Result<T, Cause>,
        region: Region,
    ) -> stream::Result<()> {
        if answer.is_ok() {
            self.region = region;
        }
        self.put(answer)
    }
}

// A status of 0 and the answer, or the refusal's number and what stands beside it.
impl<T: ToWords> ToWords for Result<T, Cause> {
    fn put_to(&self, words: &mut Writer<'_>) -> stream::Result<()> {
        match self {
            Ok(answer) => {
                words.put(0)?;
                answer.put_to(words)
            }
            Err(cause) => {
                words.put(refusal::number(*cause))?;
                match *cause {
                    Cause::OutsideDomain(index) => index.put_to(words),
                    Cause::ShortOutput(needed) => needed.put_to(words),
                    _ => Ok(()),
                }
            }
        }
    }
}

// Whether there is one, and that one.
impl<T: ToWords> ToWords for Option<T> {
    fn put_to(&self, words: &mut Writer<'_>) -> stream::Result<()> {
        match self {
            Some(answer) => {
                true.put_to(words)?;
                answer.put_to(words)
            }
            None => false.put_to(words),
        }
    }
}

impl ToWords for () {
    fn put_to(&self, _: &mut Writer<'_>) -> stream::Result<()> {
        Ok(())
    }
}

impl ToWords for u64 {
    fn put_to(&self, words: &mut Writer<'_>) -> stream::Result<()> {
        words.put(*self)
    }
}

impl ToWords for usize {
    fn put_to(&self, words: &mut Writer<'_>) -> stream::Result<()> {
        words.put(*self as u64)
    }
}

impl ToWords for bool {
    fn put_to(&self, words: &mut Writer<'_>) -> stream::Result<()> {
        words.put(*self as u64)
    }
}

impl ToWords for f64 {
    fn put_to(&self, words: &mut Writer<'_>) -> stream::Result<()> {
        words.put(float::to_bits(*self))
    }
}

impl<T: ToWords, U: ToWords> ToWords for (T, U) {
    fn put_to(&self, words: &mut Writer<'_>) -> stream::Result<()> {
        self.0.put_to(words)?;
        self.1.put_to(words)
    }
}

impl<T: ToWords> ToWords for &[T] {
    fn put_to(&self, words: &mut Writer<'_>) -> stream::Result<()> {
        for value in *self {
            value.put_to(words)?;
        }
        Ok(())
    }
}

impl ToWords for Vect3 {
    fn put_to(&self, words: &mut Writer<'_>) -> stream::Result<()> {
        [self.x, self.y, self.z].as_slice().put_to(words)
    }
}

// By the vector's words, which are the same.
impl ToWords for UnitVect3 {
    fn put_to(&self, words: &mut Writer<'_>) -> stream::Result<()> {
        self.to_vect3().put_to(words)
    }
}

impl ToWords for Coo3D {
    fn put_to(&self, words: &mut Writer<'_>) -> stream::Result<()> {
        [self.x, self.y, self.z, self.lon, self.lat]
            .as_slice()
            .put_to(words)
    }
}

impl ToWords for LonLat {
    fn put_to(&self, words: &mut Writer<'_>) -> stream::Result<()> {
        (self.lon, self.lat).put_to(words)
    }
}

impl ToWords for Crossings {
    fn put_to(&self, words: &mut Writer<'_>) -> stream::Result<()> {
        self.len.put_to(words)?;
        for point in self.points.iter().take(self.len) {
            point.put_to(words)?;
        }
        Ok(())
    }
}

impl ToWords for AllAnswer {
    fn put_to(&self, words: &mut Writer<'_>) -> stream::Result<()> {
        self.outcome.map(|()| self.crossings).put_to(words)
    }
}

// The count, the flag, the corners and the normals; a count of 0 or above 64 is refused.
impl ToWords for Region {
    fn put_to(&self, words: &mut Writer<'_>) -> stream::Result<()> {
        let count = domain::check_count(self.count).map(|()| self.count);
        count.put_to(words)?;
        if let Ok(count) = count {
            self.contains_south_pole.put_to(words)?;
            (&self.vertices[..count]).put_to(words)?;
            (&self.cross_products[..count]).put_to(words)?;
        }
        Ok(())
    }
}
