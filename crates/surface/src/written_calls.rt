use std::io;
use std::io::{ErrorKind, Write};
use std::test::Fail;
use written::{Failed, flush_all, is_interrupted, put_all};

/// Takes one byte a call, and is interrupted at every second call.
#[derive(Drop)]
struct Slow {
    bytes: Vec<u8>,
    is_next: bool,
}

impl Write for Slow {
    fn write(&mut self, buf: &[u8]) -> io::Result<usize> {
        self.is_next = !self.is_next;
        if self.is_next || buf.is_empty() {
            return Err(io::Error::from(ErrorKind::Interrupted));
        }
        self.bytes.push(buf[0])?;
        Ok(1)
    }

    fn flush(&mut self) -> io::Result<()> {
        self.is_next = !self.is_next;
        if self.is_next {
            return Err(io::Error::from(ErrorKind::Interrupted));
        }
        Ok(())
    }
}

/// Takes so many bytes, and then nothing.
#[derive(Drop)]
struct Full {
    left: usize,
}

impl Write for Full {
    fn write(&mut self, buf: &[u8]) -> io::Result<usize> {
        let taken = if buf.len() < self.left {
            buf.len()
        } else {
            self.left
        };
        self.left -= taken;
        Ok(taken)
    }

    fn flush(&mut self) -> io::Result<()> {
        Err(io::Error::from(ErrorKind::StorageFull))
    }
}

#[test]
fn a_slow_writer_gets_all_of_it(rt: HostRuntime) -> Result<(), Fail> {
    let mut slow = Slow {
        bytes: Vec::new(rt.alloc()),
        is_next: false,
    };
    put_all(&mut slow, b"ab")?;
    flush_all(&mut slow)?;
    assert_eq!(rt; slow.bytes.as_slice(), b"ab".as_slice());
    Ok(())
}

#[test]
fn a_full_writer_fails(rt: HostRuntime) {
    let mut full = Full { left: 3 };
    assert_eq!(rt; put_all(&mut full, b"ab"), Ok(()));
    assert_eq!(rt; put_all(&mut full, b"cd"), Err(Failed));
    assert_eq!(rt; full.left, 0);
    assert_eq!(rt; flush_all(&mut full), Err(Failed));
}
