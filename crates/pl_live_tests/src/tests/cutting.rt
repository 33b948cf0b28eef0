//! Bursts: of chunks, cut anew, and by chance.

use pl_event::{ByteString, Element, Sequence};
use std::alloc::{AllocError, Global};
use std::mem;
use std::test::Fail;

/// What a channel reads at once.
pub(crate) type Burst = Sequence<Element>;

pub(crate) type Bursts = Sequence<Burst>;

/// A chunk of these bytes.
pub(crate) fn chunk(alloc: Global, bytes: &[u8]) -> Result<Element, AllocError> {
    Ok(Element::Chunk(ByteString::from_slice(alloc, bytes)?))
}

/// A burst of these chunks.
pub(crate) fn burst_of(alloc: Global, chunks: &[&[u8]]) -> Result<Burst, Fail> {
    let mut burst = Sequence::new(alloc);
    for bytes in chunks {
        burst.push(chunk(alloc, bytes)?)?;
    }
    Ok(burst)
}

/// How bursts are cut.
#[derive(Clone, Copy, Debug)]
pub(crate) enum Cutting {
    /// As they were recorded.
    Recorded,
    /// Each byte and each user event comes as a burst.
    Apart,
    /// All comes in one burst.
    Together,
}

/// Each of them.
pub(crate) const CUTTINGS: [Cutting; 3] = [Cutting::Recorded, Cutting::Apart, Cutting::Together];

/// Bursts that are made element by element.
#[derive(Drop)]
struct Cutter {
    alloc: Global,
    bursts: Bursts,
    /// What came behind the last burst that has ended.
    burst: Burst,
}

impl Cutter {
    fn new(alloc: Global) -> Self {
        Cutter {
            alloc,
            bursts: Sequence::new(alloc),
            burst: Sequence::new(alloc),
        }
    }

    fn end_burst(&mut self) -> Result<(), Fail> {
        let burst = mem::replace(&mut self.burst, Sequence::new(self.alloc));
        self.bursts.push(burst)?;
        Ok(())
    }

    fn add(&mut self, element: &Element) -> Result<(), Fail> {
        self.burst.push(element.clone()?)?;
        Ok(())
    }

    /// Each byte of an element, or the user event, as a burst.
    fn add_apart(&mut self, element: &Element) -> Result<(), Fail> {
        match element {
            Element::Chunk(bytes) => self.add_bytes(bytes.as_slice()),
            Element::User(_) => {
                self.add(element)?;
                self.end_burst()
            }
        }
    }

    /// Each of these bytes as a burst.
    fn add_bytes(&mut self, bytes: &[u8]) -> Result<(), Fail> {
        for byte in bytes {
            self.burst.push(chunk(self.alloc, &[*byte])?)?;
            self.end_burst()?;
        }
        Ok(())
    }

    fn add_burst(&mut self, burst: &[Element], cutting: Cutting) -> Result<(), Fail> {
        for element in burst {
            match cutting {
                Cutting::Apart => self.add_apart(element)?,
                Cutting::Recorded | Cutting::Together => self.add(element)?,
            }
        }
        match cutting {
            Cutting::Recorded => self.end_burst(),
            Cutting::Apart | Cutting::Together => Ok(()),
        }
    }
}

/// These bursts, so cut.
pub(crate) fn cut(alloc: Global, bursts: &[Burst], cutting: Cutting) -> Result<Bursts, Fail> {
    let mut cutter = Cutter::new(alloc);
    for burst in bursts {
        cutter.add_burst(burst.as_slice(), cutting)?;
    }
    if let Cutting::Together = cutting {
        cutter.end_burst()?;
    }
    let Cutter { bursts, .. } = cutter;
    Ok(bursts)
}

/// A copy of a burst.
pub(crate) fn copy_of(alloc: Global, burst: &[Element]) -> Result<Burst, Fail> {
    let mut copy = Sequence::new(alloc);
    for element in burst {
        copy.push(element.clone()?)?;
    }
    Ok(copy)
}

/// Copies of the first bursts, so many.
pub(crate) fn first_of(alloc: Global, bursts: &[Burst], count: usize) -> Result<Bursts, Fail> {
    let mut first = Sequence::new(alloc);
    for burst in bursts.iter().take(count) {
        first.push(copy_of(alloc, burst.as_slice())?)?;
    }
    Ok(first)
}

/// The next of a series of numbers, whose upper half is as good as random (Knuth's linear congruential generator).
pub(crate) fn next_number(number: u64) -> u64 {
    number
        .wrapping_mul(6_364_136_223_846_793_005)
        .wrapping_add(1_442_695_040_888_963_407)
}

/// Parts of lines, of which chunks are made by chance.
const PIECES: [&[u8]; 15] = [
    b"PING\r\n",
    b"PI",
    b"NG\n",
    b"ECHO hello",
    b" \r",
    b"\n",
    b"\r\n",
    b"ADD a 7\n",
    b"ADD b",
    b" 12\nGET a\n",
    b"GET b\r\n",
    b"",
    b"ECHO\n\nNOPE\n",
    b"ECHO ________________________________",
    b"________________________________\n",
];

/// A user event, once in a while a client that quits, or else a part of a line, by a number.
fn element_by(alloc: Global, number: u64) -> Result<Element, Fail> {
    if number % 11 == 0 {
        return Ok(Element::User((number % 1_000) as u32));
    }
    let bytes = if number % 89 == 1 {
        b"\nQUIT\n".as_slice()
    } else {
        PIECES[(number / 100 % 15) as usize]
    };
    Ok(chunk(alloc, bytes)?)
}

/// A burst of up to three elements, by a number, which goes on.
fn burst_by(alloc: Global, number: &mut u64) -> Result<Burst, Fail> {
    let mut burst = Sequence::new(alloc);
    *number = next_number(*number);
    for _ in 0..(*number >> 33) % 4 {
        *number = next_number(*number);
        burst.push(element_by(alloc, *number >> 33)?)?;
    }
    Ok(burst)
}

/// So many bursts by chance, from this number on.
pub(crate) fn random_bursts(alloc: Global, seed: u64, count: usize) -> Result<Bursts, Fail> {
    let mut number = seed;
    let mut bursts = Sequence::new(alloc);
    for _ in 0..count {
        bursts.push(burst_by(alloc, &mut number)?)?;
    }
    Ok(bursts)
}
