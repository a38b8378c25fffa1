// A writer that keeps whether nobody reads what it writes.
ghost use Rattle.std.specs.Prelude.{◌≡◌};

use std::io;

#[derive(Drop)]
pub struct Watched<W> {
    writer: W,
    unread: bool,
}

impl<W: io::Write> Watched<W> {
    pub fn new(writer: W) -> Watched<W> {
        Watched {
            writer,
            unread: false,
        }
    }

    // A write failed since its reader is gone.
    pub fn is_unread(&self) -> bool {
        self.unread
    }
}

impl<W: io::Write> io::Write for Watched<W> {
    ghost contents = { λ s. W.contents s.writer };

    fn write(&mut self, bytes: &[u8]) -> io::Result<usize> {
        let wrote = self.writer.write(bytes);
        if let Err(e) = &wrote {
            self.unread |= e.kind() == io::ErrorKind::BrokenPipe;
        }
        wrote
    }

    fn flush(&mut self) -> io::Result<()> {
        self.writer.flush()
    }
}
