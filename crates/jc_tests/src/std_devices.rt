//! Tests of devices over readers and writers of std.

use jc_base::{DeviceFault, Input, Output, StdInput, StdOutput, write_all};
use std::alloc::Global;
use std::io;
use std::io::{Read, Write};

/// A reader that returns a text, is interrupted once, and then returns the rest.
#[derive(Drop)]
struct Interrupted<'a> {
    text: &'a [u8],
    rest: &'a [u8],
    told: bool,
}

impl<'a> Read for Interrupted<'a> {
    fn read(&mut self, buf: &mut [u8]) -> io::Result<usize> {
        if !self.text.is_empty() {
            return self.text.read(buf);
        }
        if !self.told {
            self.told = true;
            return Err(io::Error::from(io::ErrorKind::Interrupted));
        }
        self.rest.read(buf)
    }
}

/// A writer that takes at most three bytes per call. Once it has `cut` bytes, it fails once, or takes nothing if
/// `refuses` is set.
#[derive(Drop)]
struct Choppy {
    got: Vec<u8>,
    cut: Option<usize>,
    refuses: bool,
}

impl Write for Choppy {
    fn write(&mut self, buf: &[u8]) -> io::Result<usize> {
        if self.cut == Some(self.got.len()) {
            if self.refuses {
                return Ok(0);
            }
            self.cut = None;
            return Err(io::Error::from(io::ErrorKind::Interrupted));
        }
        let most = buf.len().min(3);
        self.got.extend_from_slice(&buf[..most])?;
        Ok(most)
    }

    fn flush(&mut self) -> io::Result<()> {
        Ok(())
    }
}

fn make_choppy(alloc: Global, cut: Option<usize>, refuses: bool) -> StdOutput<Choppy> {
    StdOutput::new(Choppy {
        got: Vec::new(alloc),
        cut,
        refuses,
    })
}

#[test]
fn a_reader_is_read_to_its_end(rt: HostRuntime) {
    let mut input = StdInput::new(b"abc".as_slice());
    let mut buffer = [0; 2];
    assert!(rt; !input.has_ended());
    assert!(rt; input.read(&mut buffer) == Ok(2));
    assert!(rt; &buffer == b"ab");
    assert!(rt; !input.has_ended());
    assert!(rt; input.read(&mut []) == Ok(0));
    assert!(rt; !input.has_ended());
    assert!(rt; input.into_inner() == b"c".as_slice());
}

#[test]
fn an_interrupted_read_fails(rt: HostRuntime) {
    let mut input = StdInput::new(Interrupted {
        text: b"ab",
        rest: b"c",
        told: false,
    });
    let mut buffer = [0; 4];
    assert!(rt; !input.has_ended());
    assert!(rt; input.read(&mut buffer) == Ok(2));
    assert!(rt; !input.has_ended());
    assert!(rt; input.read(&mut buffer) == Err(DeviceFault));
    assert!(rt; !input.has_ended());
    assert!(rt; input.read(&mut buffer) == Ok(1));
    assert!(rt; !input.has_ended());
    assert!(rt; input.read(&mut buffer) == Ok(0));
    assert!(rt; input.has_ended());
}

#[test]
fn a_text_is_written_in_several_writes(rt: HostRuntime) {
    let mut output = make_choppy(rt.alloc(), None, false);
    assert!(rt; write_all(&mut output, b"one, two") == Ok(()));
    assert!(rt; output.into_inner().got.as_slice() == b"one, two".as_slice());
}

#[test]
fn an_interrupted_write_is_not_tried_again(rt: HostRuntime) {
    let mut output = make_choppy(rt.alloc(), Some(3), false);
    assert!(rt; write_all(&mut output, b"one, two") == Err(DeviceFault));
    assert!(rt; output.into_inner().got.as_slice() == b"one".as_slice());
}

#[test]
fn a_writer_that_takes_nothing_fails(rt: HostRuntime) {
    let mut output = make_choppy(rt.alloc(), Some(0), true);
    assert!(rt; output.write(b"one") == Err(DeviceFault));
    assert!(rt; output.write(b"") == Ok(0));
    assert!(rt; output.into_inner().got.len() == 0);
}
