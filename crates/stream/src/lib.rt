// The request stream: 64-bit little-endian words from standard input and to standard output.
// Each of the two has a lent buffer: std's `BufReader` and `BufWriter` take an allocator, which the camera has not.
#![tactic(auto)]

ghost use Rattle.std.specs.Prelude.{◌≡◌, ◌≤◌, IfOk};

use coo3d::{Coo3D, Vect3};
use std::io;
use std::io::{Read, Stdin, Stdout};

// Why no further request is answered.
#[derive(Debug, Drop)]
pub enum Stop {
    // The input ended, between two requests or inside one, or a request is wrong.
    Ended,
    Failed(io::Error),
}

impl From<io::Error> for Stop {
    fn from(error: io::Error) -> Stop {
        Stop::Failed(error)
    }
}

pub type Result<T> = std::result::Result<T, Stop>;

// The length is a multiple of 8, so that no word of the stream lies in two buffers.
pub const BUFFER_LEN: usize = 65536;

// What a request is made of.
pub trait FromWords {
    fn get_from(words: &mut Reader<'_>) -> Result<Self>;
}

#[derive(Drop)]
pub struct Reader<'a> {
    from: Stdin,
    bytes: &'a mut [u8; BUFFER_LEN],
    // The bytes from `at` up to `end` are still to be read.
    at: usize,
    end: usize,
}

#[derive(Drop)]
pub struct Writer<'a> {
    to: Stdout,
    bytes: &'a mut [u8; BUFFER_LEN],
    // The first `len` bytes are still to be written.
    len: usize,
    ghost fits: { len ≤ 65536 },
}

// Reads until the bytes are full or the input ends, and answers how many it read. The loop counts bytes, not turns: one read may give several.
fn read_full(mut from: Stdin, bytes: &mut [u8]) -> io::Result<usize> {
    let mut done = 0;
    while done < bytes.len() {
        match from.read(&mut bytes[done..])? {
            0 => break,
            n => done += n,
        }
    }
    Ok(done)
}

impl<'a> Reader<'a> {
    pub fn new(from: Stdin, bytes: &'a mut [u8; BUFFER_LEN]) -> Reader<'a> {
        Reader {
            from,
            bytes,
            at: 0,
            end: 0,
        }
    }

    fn fill(&mut self) -> io::Result<()> {
        let bytes = &mut *self.bytes;
        let end = read_full(self.from, &mut bytes[..])?;
        self.at = 0;
        self.end = end;
        Ok(())
    }

    // The next word, if the buffer has a whole one.
    fn next_word(&mut self) -> Option<u64> {
        let word = self.bytes.get(self.at..self.end)?.first_chunk()?;
        self.at += 8;
        Some(u64::from_le_bytes(*word))
    }

    pub fn get<T: FromWords>(&mut self) -> Result<T> {
        T::get_from(self)
    }

    // A number of bytes or of points, up to 4,096.
    pub fn get_length(&mut self) -> Result<usize>
        ensures { IfOk result (λ n. n ≤ 4096) }
    {
        match self.get()? {
            n @ 0..=4096 => Ok(n),
            _ => Err(Stop::Ended),
        }
    }

    // As many bytes as are lent, eight to a word. A whole chunk is copied at once: byte by byte a file of 4 KB took twice the time. Of the last chunk nothing
    // need be known: `zip` ends with the shorter of the two.
    pub fn get_bytes(&mut self, bytes: &mut [u8]) -> Result<()> {
        for chunk in bytes.chunks_mut(8) {
            let word: u64 = self.get()?;
            let read = word.to_le_bytes();
            if chunk.len() == 8 {
                chunk.copy_from_slice(&read);
            } else {
                for (byte, read) in chunk.iter_mut().zip(read) {
                    *byte = read;
                }
            }
        }
        Ok(())
    }

    pub fn get_each<T: FromWords + Drop>(&mut self, values: &mut [T]) -> Result<()> {
        for value in values {
            *value = self.get()?;
        }
        Ok(())
    }

    // n points, of which those past the 64th are read and dropped.
    pub fn get_points(&mut self, n: usize) -> Result<[Coo3D; 64]> {
        let mut points = [Coo3D::origin(); 64];
        for point in points.iter_mut().take(n) {
            *point = self.get()?;
        }
        for _ in 64..n {
            let _dropped: Coo3D = self.get()?;
        }
        Ok(points)
    }
}

impl FromWords for u64 {
    fn get_from(words: &mut Reader<'_>) -> Result<u64> {
        if words.at >= words.end {
            words.fill()?;
        }
        words.next_word().ok_or(Stop::Ended)
    }
}

impl FromWords for usize {
    fn get_from(words: &mut Reader<'_>) -> Result<usize> {
        let word: u64 = words.get()?;
        Ok(word as usize)
    }
}

impl FromWords for f64 {
    fn get_from(words: &mut Reader<'_>) -> Result<f64> {
        Ok(float::from_bits(words.get()?))
    }
}

impl FromWords for Vect3 {
    fn get_from(words: &mut Reader<'_>) -> Result<Vect3> {
        Ok(Vect3 {
            x: words.get()?,
            y: words.get()?,
            z: words.get()?,
        })
    }
}

impl FromWords for Coo3D {
    fn get_from(words: &mut Reader<'_>) -> Result<Coo3D> {
        Ok(Coo3D {
            x: words.get()?,
            y: words.get()?,
            z: words.get()?,
            lon: words.get()?,
            lat: words.get()?,
        })
    }
}

impl<'a> Writer<'a> {
    pub fn new(to: Stdout, bytes: &'a mut [u8; BUFFER_LEN]) -> Writer<'a> {
        Writer { to, bytes, len: 0 }
    }

    // Writes what is still to be written. What a failed write left out is not tried again.
    pub fn flush(&mut self) -> io::Result<()>
        ensures { self.new.len ≡ 0 }
    {
        let len = self.len;
        self.len = 0;
        self.to.write_all(&self.bytes[..len])
    }

    pub fn put(&mut self, word: u64) -> Result<()> {
        if self.len > BUFFER_LEN - 8 {
            self.flush()?;
        }
        let end = self.len + 8;
        let bytes = &mut *self.bytes;
        bytes[self.len..end].copy_from_slice(&word.to_le_bytes());
        self.len = end;
        Ok(())
    }

    // Eight bytes to a word, the last one filled up with zero bytes: by `zip`, as above.
    pub fn put_bytes(&mut self, bytes: &[u8]) -> Result<()> {
        for chunk in bytes.chunks(8) {
            let mut word = [0; 8];
            for (byte, given) in word.iter_mut().zip(chunk) {
                *byte = *given;
            }
            self.put(u64::from_le_bytes(word))?;
        }
        Ok(())
    }
}
