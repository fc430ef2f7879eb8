//! Real streams as sources and sinks. They tell nothing of what they hold: that a real stream keeps what it took is
//! trusted. They count their faults.

ghost use Rattle.std.specs.Prelude.{◌<◌, ◌≤◌, None, IfSome, length};

use hs_outside::{Failed, Sink, Source};
use hs_text::Text;
use std::alloc::Global;
use std::io::{ErrorKind, Read, Write};
use std::mem;

/// How often an interrupted call is made again.
const TRIES: u32 = 1000;

/// The most bytes that one call hands over.
const MOST: usize = 1 << 16;

/// Writes a front of the piece, and says how many bytes.
fn write_some<W: Write>(writer: &mut W, piece: &[u8]) -> Option<usize>
    ensures { IfSome result (λ n. (0 < n) × (n ≤ length piece.now)) }
{
    for _ in 0..TRIES {
        match writer.write(piece) {
            Ok(0) => return None,
            Ok(count) => return Some(count),
            Err(error) if error.kind() == ErrorKind::Interrupted => {}
            Err(_) => return None,
        }
    }
    None
}

/// Writes a front of the piece, if there is a writer.
fn written_by<W: Write>(writer: &mut Option<W>, piece: &[u8]) -> Option<usize>
    ensures { IfSome result (λ n. (0 < n) × (n ≤ length piece.now)) }
{
    match writer {
        Some(writer) => write_some(writer, piece),
        None => None,
    }
}

/// Reads into the buffer, and says how many bytes.
fn read_some<R: Read>(reader: &mut R, buffer: &mut [u8]) -> Option<usize>
    ensures { IfSome result (λ n. n ≤ length buffer.old) }
{
    for _ in 0..TRIES {
        match reader.read(buffer) {
            Ok(count) => return Some(count),
            Err(error) if error.kind() == ErrorKind::Interrupted => {}
            Err(_) => return None,
        }
    }
    None
}

/// A writer as a sink.
#[derive(Drop)]
pub struct StreamSink<W> {
    /// None is a sink that takes nothing: each write to it fails.
    writer: Option<W>,
    faults: u64,
}

impl<W> StreamSink<W> {
    pub fn new(writer: W) -> StreamSink<W> {
        StreamSink {
            writer: Some(writer),
            faults: 0,
        }
    }
}

impl<W: Write + Drop> Sink for StreamSink<W> {
    ghost written = { λ s. None };

    ghost faults = { λ s. s.faults };

    fn write(&mut self, piece: &[u8]) -> Result<u32, Failed> {
        let front = piece.split_at(piece.len().min(MOST)).0;
        match written_by(&mut self.writer, front) {
            Some(count) => Ok(count as u32),
            None => {
                self.faults = self.faults.saturating_add(1);
                Err(Failed::Fault)
            }
        }
    }

    fn take(&mut self, _alloc: Global) -> StreamSink<W> {
        let empty = StreamSink {
            writer: None,
            faults: 0,
        };
        mem::replace(self, empty)
    }

    fn put(&mut self, sink: StreamSink<W>) {
        *self = sink;
    }
}

/// A reader as a source.
#[derive(Drop)]
pub struct StreamSource<R> {
    reader: R,
    ended: bool,
    faults: u64,
}

impl<R> StreamSource<R> {
    pub fn new(reader: R) -> StreamSource<R> {
        StreamSource {
            reader,
            ended: false,
            faults: 0,
        }
    }
}

impl<R: Read> Source for StreamSource<R> {
    ghost bytes_taken = { λ s. None };

    ghost left = { λ s. None };

    ghost ended = { λ s. s.ended };

    ghost faults = { λ s. s.faults };

    fn take(&mut self, alloc: Global, max: u32) -> Result<Option<Text>, Failed> {
        let most = MOST.min(max as usize);
        let Ok(mut bytes) = vec![in alloc; 0u8; most] else {
            return Err(Failed::NoMemory);
        };
        let Some(count) = read_some(&mut self.reader, &mut bytes) else {
            self.faults = self.faults.saturating_add(1);
            return Err(Failed::Fault);
        };
        if count == 0 {
            self.ended = true;
            return Ok(None);
        }
        match Text::from_slice(alloc, bytes.split_at(count).0) {
            Ok(text) => Ok(Some(text)),
            Err(_) => Err(Failed::NoMemory),
        }
    }
}
